// Specifications only: the claim about whole runs (document 01, "Whole runs") and its proof.

#![tactic(auto)]
