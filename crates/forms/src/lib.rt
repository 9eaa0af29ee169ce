// Polynomials in any number of variables over a box: definitions in specs/, theorems in proofs/. No code.

#![tactic(auto)]
