// The clearance rules, and the theorem that whatever runs on a ROM that keeps them is never refused for the ROM's sake. They
// are stated in specs/ and proved in proofs/; there is no code here.

#![tactic(auto)]
