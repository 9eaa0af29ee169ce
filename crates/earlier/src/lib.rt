// Definitions that a request replaced, and what the request says of them: definitions and statements in specs/, theorems in proofs/. No code.

#![tactic(auto)]
