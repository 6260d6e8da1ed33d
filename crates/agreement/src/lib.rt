// Demand 3 of document 01, proved over the model of `line`: no code, the statement is in `specs/`, and its proof there and in `proofs/`.
#![tactic(auto)]
