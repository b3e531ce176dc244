// Laws only: the machine over positions is the machine of the definitions.
#![tactic(auto)]
