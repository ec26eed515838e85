// No code: when an area's figures are current is defined in specs/; proofs/ shows what keeps them so and that they are the figures of the netlist.
#![tactic(auto)]
