// No code: specs/ has what is said of lists and sums in more than one crate, proofs/ the laws of it.
#![tactic(auto)]
