// What a text means: no code; see specs/ and proofs/.
#![tactic(auto)]
