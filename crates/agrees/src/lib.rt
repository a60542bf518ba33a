// Theorems alone: what the code does in place is what `format` says.

#![tactic(auto)]
