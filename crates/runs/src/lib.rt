// Specifications only: the runs on the bench (document 01, "Runs on the bench") that are marked P, as one table.

#![tactic(auto)]
