// The list of calls and the book of document 01: definitions and the statement in specs/, the theorem in proofs/. No code.
#![tactic(auto)]
