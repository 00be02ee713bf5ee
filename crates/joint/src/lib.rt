// Theorems over the definitions: what document 02's A8 changed, and what it kept.

#![tactic(auto)]
