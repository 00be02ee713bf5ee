// Theorems over the contracts: how far mu-law can move a sample.

#![tactic(auto)]
