// The netlist, its values under flips, the exact sum, its figures, its live gates and where a flip is seen are defined in specs/, their laws proved in proofs/.
#![tactic(auto)]

// The two ways to tell in which patterns a gate's flip is seen at an output: flip it and look, or pass masks back from the outputs.
#[derive(Clone, Copy)]
pub enum Method {
    Flip,
    Mask,
}
