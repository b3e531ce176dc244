// Laws only: a larger store and larger budgets tell the same story.
#![tactic(auto)]
