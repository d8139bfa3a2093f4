// Worked cases: document 01's starred ones, Cholesky's solve, twin rows.
#![tactic(auto)]
