// The proof that a refusal gives a node of the file is in specs/; this crate has no code.
#![tactic(auto)]
