// Will it fit: which numbers the wires of a circuit can take, and how far one input can move a score. What is worked out is in specs/, what is
// promised of it in specs/ too, and proved in proofs/. There are no functions here.
#![tactic(auto)]
