// Laws of plain code: what its trees use and bind, and that the walk backwards comes to the annotated rows; they are
// in specs/.
#![tactic(auto)]
