// The starred sheets of the page: a table in specs/, and one theorem in proofs/. No code.

#![tactic(auto)]
