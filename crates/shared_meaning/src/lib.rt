// What is promised of the call "shared reliability" beside its equation: statements and worked images in specs/, theorems in proofs/. No code.
#![tactic(auto)]
