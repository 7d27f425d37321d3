// Theorems about what `why` tells of a cell, over the definitions of transcript. They are stated in specs/ and proved in proofs/;
// there is no code here.

#![tactic(auto)]
