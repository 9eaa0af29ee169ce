// Writing then reading: what the two calls promise together, statements in specs/, theorems in proofs/. No code.

#![tactic(auto)]
