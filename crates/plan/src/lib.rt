// What a walk over all patterns knows beforehand: the live gates one after another, and which rows of patterns a source does not tell apart.
//
// A row has 32 patterns, and its number is its first pattern over 32: bit k of it is the value of input 5 + k, and the first five inputs have the same
// values in every row.
#![tactic(auto)]

ghost use Rattle.std.specs.Prelude.{◌≡◌, ℕ, ◌+◌, ◌<◌, ◌≤◌, get_or};
ghost use Rattle.area.specs.Layout as layout;
ghost use Rattle.area.specs.Rules.{NetSound};
ghost use Rattle.plan.specs.Plan.{row_bits, NextLive, InputBits, Unseen};

// The inputs that change within a row, and the bits of a row's number.
const ROW_INPUTS: usize = 5;

const ROW_BITS: usize = area::MOST_INPUTS - ROW_INPUTS;

// The lowest live gate from `gate` on, where `next` has that of the gate after it.
fn next_from(
    next: &[usize; area::MOST_SOURCES],
    readers: &[u32; area::MOST_SOURCES],
    source: usize,
    gate: usize,
) -> usize
    requires { (source < layout.most_sources) × (gate < layout.most_gates) }
    ensures value { 0 < get_or readers.now source 0 → result ≡ gate }
    ensures value_2 { get_or readers.now source 0 ≡ 0 → result ≡ get_or next.now (gate + 1) 0 }
{
    if 0 < readers[source] {
        return gate;
    }
    next[gate + 1]
}

// From each gate on the lowest live one; the number of gates where there is none.
pub fn next_live(area: &[u32]) -> [usize; area::MOST_SOURCES]
    requires { NetSound area.now }
    ensures { NextLive area.now result 0 }
{
    let readers = live::count_readers(area);
    let inputs = area::inputs(area);
    let count = area::gates(area);
    let mut next = [count; area::MOST_SOURCES];
    for gate in (0..count).rev() {
        next[gate] = next_from(&next, &readers, inputs + gate, gate);
    }
    next
}

// How many of the lowest bits of a row's number an input does not see; the gates' entries have all of them as yet.
fn input_bits(inputs: usize) -> [usize; area::MOST_SOURCES]
    requires { inputs ≤ layout.most_inputs }
    ensures { InputBits result inputs }
{
    let mut unseen = [ROW_BITS; area::MOST_SOURCES];
    for input in ROW_INPUTS..inputs {
        unseen[input] = input - ROW_INPUTS;
    }
    unseen
}

// A gate sees what its pins see.
fn gate_bits(unseen: &[usize; area::MOST_SOURCES], area: &[u32], gate: usize) -> usize
    requires { NetSound area.now × (gate < layout.gates area.now) }
    ensures upper_bound { result ≤ row_bits }
    ensures by_index { (i : ℕ) → i < layout.pin_count area.now gate → result ≤ get_or unseen.now (layout.pin area.now gate i) 0 }
{
    let count = area::pin_count(area, gate);
    let mut bits = ROW_BITS;
    for i in 0..count {
        bits = bits.min(unseen[area::pin(area, gate, i)]);
    }
    bits
}

// How many of the lowest bits of a row's number each source does not see.
pub fn unseen_bits(area: &[u32]) -> [usize; area::MOST_SOURCES]
    requires { NetSound area.now }
    ensures { Unseen area.now result (layout.gates area.now) }
{
    let inputs = area::inputs(area);
    let count = area::gates(area);
    let mut unseen = input_bits(inputs);
    for gate in 0..count {
        unseen[inputs + gate] = gate_bits(&unseen, area, gate);
    }
    unseen
}
