// Theorems on the operators, in proofs/.
#![tactic(auto)]
