// The error bound of document 01 for all sizes: statements in specs/, theorems in proofs/. No code.
#![tactic(auto)]
