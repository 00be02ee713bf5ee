// Theorems: a target without a pitch, and the marks of a sheet that begins another.

#![tactic(auto)]
