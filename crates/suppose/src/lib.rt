// Netlists with shared gates: what a set of suppositions is, what readers see under it and what the sets add up to. Definitions in specs/, their laws
// in proofs/. No code.
#![tactic(auto)]
