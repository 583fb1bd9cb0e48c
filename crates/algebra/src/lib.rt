// Arithmetic as every definition and theorem takes it: operations, the laws of a field, sums. There is no code here.
#![tactic(auto)]
