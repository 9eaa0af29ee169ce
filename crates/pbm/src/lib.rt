// Plain PBM, the Netpbm `P1` form, as request #103 has it: definitions and statements in specs/, theorems in proofs/. No code.

#![tactic(auto)]
