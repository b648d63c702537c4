// Specifications only: what the programs make of their input, connected to the claim about whole runs (document 01, "Whole runs").

#![tactic(auto)]
