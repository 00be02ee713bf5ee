// Theorems over the contracts: what a strict call refuses, and that it is else the call with strict off.

#![tactic(auto)]
