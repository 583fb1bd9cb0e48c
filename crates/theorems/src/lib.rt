// Theorems about the joint run's definitions. What they say is in specs/, their proofs in proofs/.
#![tactic(auto)]
