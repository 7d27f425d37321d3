// Theorems about words and instructions, over the definitions of isa. They are stated in specs/ and proved in proofs/; there
// is no code here.

#![tactic(auto)]
