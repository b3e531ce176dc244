// Laws only: of two runs, one never has more cells in use than the other.
#![tactic(auto)]
