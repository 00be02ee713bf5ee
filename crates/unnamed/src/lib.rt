// Theorems over the contracts: a call that names no filter answers in everything as the one that names float.

#![tactic(auto)]
