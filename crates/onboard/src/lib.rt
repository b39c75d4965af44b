// Theorems alone: what the demands say of the calls for C. There is no code here.
#![tactic(auto)]
