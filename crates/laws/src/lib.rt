// General laws that the proofs of the other crates cite. They stand in proofs/; there is no code here.

#![tactic(auto)]
