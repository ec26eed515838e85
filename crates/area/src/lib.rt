// The work area: where each of its words stands, and the limits of document 01. specs/Layout.antt has the same names; no other crate has the numbers.
//
// How long an area must be is asked in each contract and in no type: it is the slice that the caller lends, and these functions ask no more than they did.
#![tactic(auto)]

ghost use Rattle.std.specs.Prelude.{◌≡◌, ◌+◌, ◌<◌, ◌≤◌, length, get_or, set};
ghost use Rattle.std.proofs.lemmas.List.Edits.{sets};
ghost use Rattle.area.specs.Layout as layout;
ghost use Rattle.area.specs.Sum.{low_bits, high_bits, stored_sum};

// Limits.
pub const MOST_PINS: usize = 4;

pub const MOST_INPUTS: usize = 12;

pub const MOST_GATES: usize = 1024;

pub const MOST_OUTPUTS: usize = 64;

// Inputs and gates together.
pub const MOST_SOURCES: usize = MOST_INPUTS + MOST_GATES;

// 2^12.
pub const MOST_PATTERNS: usize = 4096;

// Words that the largest netlist needs.
pub const MOST_WORDS: usize = HEAD_WORDS + GATE_WORDS * MOST_GATES + MOST_OUTPUTS;

// U / 2: no gate flips more often than not.
pub const LARGEST_FLIP: u32 = rounding::ONE / 2;

// 2 × U + 1.
pub const LARGEST_FIGURE: u32 = 2 * rounding::ONE + 1;

pub const LARGEST_WEIGHT: u32 = 1_048_575;

// Patterns that a list may have, repeated ones too.
pub const MOST_LISTED: usize = 4096;

// The head.
pub const HEAD_WORDS: usize = 8;

pub const INPUTS: usize = 0;

pub const GATES: usize = 1;

const OUTPUTS: usize = 2;

pub const PATTERN: usize = 3;

pub const RELIABILITY: usize = 4;

// The raw flip sum, its low and its high 32 bits.
pub const SUM_LOW: usize = 5;

pub const SUM_HIGH: usize = 6;

pub const RESERVED: usize = 7;

// A gate's words, from its index on.
pub const GATE_WORDS: usize = 8;

const TABLE: usize = 1;

const PINS: usize = 2;

const FLIP: usize = 6;

const FIGURE: usize = 7;

// A word as a count or an index.
pub fn index(word: u32) -> usize
    ensures { result ≡ word }
{
    word as usize
}

pub fn inputs(area: &[u32]) -> usize
    requires { layout.head_words ≤ length area.now }
    ensures { result ≡ layout.inputs area.now }
{
    index(area[INPUTS])
}

pub fn gates(area: &[u32]) -> usize
    requires { layout.head_words ≤ length area.now }
    ensures { result ≡ layout.gates area.now }
{
    index(area[GATES])
}

pub fn outputs(area: &[u32]) -> usize
    requires { layout.head_words ≤ length area.now }
    ensures { result ≡ layout.outputs area.now }
{
    index(area[OUTPUTS])
}

pub fn pin_count(area: &[u32], gate: usize) -> usize
    requires { layout.figure_index gate < length area.now }
    ensures { result ≡ layout.pin_count area.now gate }
{
    index(area[HEAD_WORDS + GATE_WORDS * gate])
}

pub fn table(area: &[u32], gate: usize) -> u32
    requires { layout.figure_index gate < length area.now }
    ensures { result ≡ layout.table area.now gate }
{
    area[HEAD_WORDS + GATE_WORDS * gate + TABLE]
}

// Where a gate's words begin.
pub fn gate_index(gate: usize) -> usize
    requires { gate < layout.most_gates }
    ensures { result ≡ layout.gate_index gate }
{
    HEAD_WORDS + GATE_WORDS * gate
}

// Where a gate's pins begin.
pub fn pins_index(gate: usize) -> usize
    requires { gate < layout.most_gates }
    ensures { result ≡ layout.pins_index gate }
{
    HEAD_WORDS + GATE_WORDS * gate + PINS
}

pub fn pin(area: &[u32], gate: usize, i: usize) -> usize
    requires { (i < layout.most_pins) × (layout.figure_index gate < length area.now) }
    ensures { result ≡ layout.pin area.now gate i }
{
    index(area[HEAD_WORDS + GATE_WORDS * gate + PINS + i])
}

// The four pins, used or not.
pub fn pins(area: &[u32], gate: usize) -> [u32; 4]
    requires { layout.figure_index gate < length area.now }
    ensures { result ≡ layout.pins area.now gate }
{
    let at = HEAD_WORDS + GATE_WORDS * gate + PINS;
    [area[at], area[at + 1], area[at + 2], area[at + 3]]
}

pub fn flip(area: &[u32], gate: usize) -> u32
    requires { layout.figure_index gate < length area.now }
    ensures { result ≡ layout.flip area.now gate }
{
    area[HEAD_WORDS + GATE_WORDS * gate + FLIP]
}

pub fn store_flip(area: &mut [u32], gate: usize, units: u32)
    requires { layout.figure_index gate < length area.old }
    ensures { area.new ≡ set area.old (layout.flip_index gate) units }
{
    area[HEAD_WORDS + GATE_WORDS * gate + FLIP] = units;
}

pub fn figure(area: &[u32], gate: usize) -> u32
    requires { layout.figure_index gate < length area.now }
    ensures { result ≡ layout.figure area.now gate }
{
    area[HEAD_WORDS + GATE_WORDS * gate + FIGURE]
}

pub fn store_figure(area: &mut [u32], gate: usize, word: u32)
    requires { layout.figure_index gate < length area.old }
    ensures { area.new ≡ set area.old (layout.figure_index gate) word }
{
    area[HEAD_WORDS + GATE_WORDS * gate + FIGURE] = word;
}

// Where the output words begin, after so many gates.
pub fn outputs_index(gates: usize) -> usize
    requires { gates ≤ layout.most_gates }
    ensures { result ≡ layout.outputs_index gates }
{
    HEAD_WORDS + GATE_WORDS * gates
}

// The source that an output reads.
pub fn output(area: &[u32], k: usize) -> u32
    requires area_bound { (layout.gates area.now ≤ layout.most_gates) × (k < layout.most_outputs) }
    requires k_in_bounds { layout.outputs_index (layout.gates area.now) + k < length area.now }
    ensures { result ≡ layout.output area.now k }
{
    area[outputs_index(gates(area)) + k]
}

// How many words so many gates and outputs need.
pub fn needed(gates: usize, outputs: usize) -> usize
    requires { (gates ≤ layout.most_gates) × (outputs ≤ layout.most_outputs) }
    ensures { result ≡ layout.needed gates outputs }
{
    HEAD_WORDS + GATE_WORDS * gates + outputs
}

// The two words of a sum.
pub fn sum_low(sum: u64) -> u32
    ensures { result ≡ low_bits sum }
{
    (sum % 4_294_967_296) as u32
}

pub fn sum_high(sum: u64) -> u32
    ensures { result ≡ high_bits sum }
{
    (sum / 4_294_967_296) as u32
}

pub fn store_sum(area: &mut [u32], sum: u64)
    requires { layout.head_words ≤ length area.old }
    ensures { area.new ≡ stored_sum area.old sum }
{
    area[SUM_LOW] = sum_low(sum);
    area[SUM_HIGH] = sum_high(sum);
}

// Stores values from `base` on.
pub fn store(words: &mut [u32], base: usize, values: &[u32])
    requires { base + length values.now ≤ length words.old }
    ensures { words.new ≡ sets words.old base values.now }
{
    words[base..base + values.len()].copy_from_slice(values);
}
