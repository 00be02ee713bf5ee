// Theorems: times typed as text, read and spoken as the floats that they stand for.

#![tactic(auto)]
