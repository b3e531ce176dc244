// The theorems on working disciplined code are in proofs/; this crate has no code.
#![tactic(auto)]
