// The kit's names that proofs use are in specs/; this crate has no code.
#![tactic(auto)]
