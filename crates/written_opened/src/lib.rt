// What opening a written image gives: no code; see specs/ and proofs/.
#![tactic(auto)]
