// Theorems about the step and the run, over their definitions. They are stated in specs/ and proved in proofs/; there is no
// code here.

#![tactic(auto)]
