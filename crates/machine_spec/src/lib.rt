// Definitions only: the machine over positions of the code, and its laws in the terms of the workers.
#![tactic(auto)]
