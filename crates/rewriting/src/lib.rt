// Theorems about document 02's R-1, in specs/; there is no code here.

#![tactic(auto)]
