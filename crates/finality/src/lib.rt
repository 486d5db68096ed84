// Demand 3, proved about the definitions of crate `model`. There is no code here: the theorems are in proofs/.
#![tactic(auto)]
