// Computed rows of the definitions are in specs/; this crate has no code.
#![tactic(auto)]
