// What a comparison means: no code; see specs/ and proofs/.
#![tactic(auto)]
