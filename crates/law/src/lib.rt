// Theorems over the definitions and the contracts: demand 3.

#![tactic(auto)]
