// Theorems about station files, over the definitions of station_file. They are stated in specs/ and proved in proofs/; there
// is no code here.

#![tactic(auto)]
