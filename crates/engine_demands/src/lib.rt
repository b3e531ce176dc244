// Demand 3 of the calls themselves, from what they promise.
#![tactic(auto)]
