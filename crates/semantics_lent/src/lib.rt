// The definitions of lent code are in specs/; this crate has no code.
#![tactic(auto)]
