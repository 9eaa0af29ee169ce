// Exact whole-number algebra: definitions in specs/, their laws in proofs/. No code.

#![tactic(auto)]
