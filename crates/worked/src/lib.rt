// Whole calls, computed over the definitions.

#![tactic(auto)]
