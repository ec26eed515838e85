// 64 patterns in one word: bit l of a source's word is its value under pattern l of a block. A gate is worked out for all of them at once.
#![tactic(auto)]

ghost use Rattle.std.specs.Prelude.{◌≡◌, cond, [], ◌∷◌, map, ℕ, ◌+◌, ◌/◌, ◌^◌, ◌<◌, ◌≤◌, length, get_or};
ghost use Rattle.figure.specs.Figure as figures;
ghost use Rattle.figure.specs.Figure.{is_odd};
ghost use Rattle.netlist.specs.Seen.{sensitive};
ghost use Rattle.area.specs.Layout as layout;
ghost use Rattle.area.specs.Rules.{NetSound};
ghost use Rattle.area.specs.Net.{net_of};
ghost use Rattle.signals.specs.Signals.{lane_count, lane, InEachLane, pin_lanes, InputWords, right_in, WordsHold, WordStored};

// Patterns in a word.
pub const LANES: usize = 64;

// A word with every bit set.
pub const ALL: u64 = 0xffff_ffff_ffff_ffff;

// `one` in the lanes where `by` is set, and `zero` in the others.
fn select(by: u64, one: u64, zero: u64) -> u64
    ensures { InEachLane result (λ l. cond (lane l by) (lane l one) (lane l zero)) }
{
    zero ^ ((zero ^ one) & by)
}

// A gate's answer in every lane, from its table, its pin count and its pins' words. `by` has what a table with one pin can answer: never, the pin inverted,
// the pin, always; by each later pin it is the answer of the table's upper half or of its lower half.
// A closure for each count: one function over the count takes 1.6 to 2 times as long, halves folded in a loop 1.1 times as long for the counts by masks.
pub fn answer(table: u32, count: usize, pins: [u64; area::MOST_PINS]) -> u64
    requires { count ≤ layout.most_pins }
    ensures { InEachLane result (λ l. figures.answer table (pin_lanes l count pins)) }
{
    let by = [0, pins[0] ^ ALL, pins[0], ALL];
    let one = |table: u32| by[(table % 4) as usize];
    let two = |table: u32| select(pins[1], one(table >> 2), one(table));
    let three = |table: u32| select(pins[2], two(table >> 4), two(table));
    match count {
        0 => [0, ALL][(table % 2) as usize],
        1 => one(table),
        2 => two(table),
        3 => three(table),
        _ => select(pins[3], three(table >> 8), three(table)),
    }
}

// The lanes in which a gate with these pins' words, whose answer is `right`, answers otherwise when one pin alone is inverted.
pub fn sensitive_word(
    table: u32,
    count: usize,
    pins: [u64; area::MOST_PINS],
    right: u64,
    pin: usize,
) -> u64
    requires count_le_most_pins { (count ≤ layout.most_pins) × (pin < count) }
    requires in_each_lane { InEachLane right (λ l. figures.answer table (pin_lanes l count pins)) }
    ensures { InEachLane result (λ l. sensitive table (pin_lanes l count pins) pin) }
{
    let mut wrong = pins;
    wrong[pin] = wrong[pin] ^ ALL;
    answer(table, count, wrong) ^ right
}

// One input's word: its bit of each listed pattern, and 0 in the lanes past the list.
fn input_word(patterns: &[u32], input: usize) -> u64
    requires { (length patterns.now ≤ lane_count) × (input < layout.most_inputs) }
    ensures { (l : ℕ) → lane l result ≡ is_odd (get_or patterns.now l 0 / 2 ^ input) }
{
    let mut word = 0;
    for l in (0..patterns.len()).rev() {
        word = 2 * word + u64::from((patterns[l] >> input) % 2);
    }
    word
}

// The words of all inputs, written into an array that is lent.
pub fn write_inputs(words: &mut [u64; area::MOST_SOURCES], patterns: &[u32], inputs: usize)
    requires { (length patterns.now ≤ lane_count) × (inputs ≤ layout.most_inputs) × (length words.old ≡ layout.most_sources) }
    ensures { InputWords inputs patterns.now words.new }
{
    for input in 0..inputs {
        words[input] = input_word(patterns, input);
    }
}

// The words of all inputs.
pub fn input_words(patterns: &[u32], inputs: usize) -> [u64; area::MOST_SOURCES]
    requires { (length patterns.now ≤ lane_count) × (inputs ≤ layout.most_inputs) }
    ensures { InputWords inputs patterns.now result }
{
    let mut words = [0u64; area::MOST_SOURCES];
    write_inputs(&mut words, patterns, inputs);
    words
}

// A source's word.
pub fn word_of(words: &[u64; area::MOST_SOURCES], source: u32) -> u64
    requires { source < layout.most_sources }
    ensures { result ≡ get_or words.now source 0 }
{
    words[area::index(source)]
}

// A gate's word. That the area is sound and has the gate is asked in each contract: it is the slice that the caller lends.
pub fn gate_word(words: &[u64; area::MOST_SOURCES], area: &[u32], gate: usize) -> u64
    requires { NetSound area.now × (gate < layout.gates area.now) }
    ensures { result ≡ get_or words.now (layout.inputs area.now + gate) 0 }
{
    words[area::inputs(area) + gate]
}

// What a gate's four pins read, used or not: an unused pin is 0, and source 0 has a word.
pub fn pin_words(words: &[u64; area::MOST_SOURCES], area: &[u32], gate: usize) -> [u64; 4]
    requires { NetSound area.now × (gate < layout.gates area.now) }
    ensures { result ≡ map (λ p. get_or words.now p 0) (layout.pins area.now gate) }
{
    let pins = area::pins(area, gate);
    [
        word_of(words, pins[0]),
        word_of(words, pins[1]),
        word_of(words, pins[2]),
        word_of(words, pins[3]),
    ]
}

// A gate's answer in every lane, where its pins have these words.
pub fn gate_answer(area: &[u32], gate: usize, pins: [u64; 4]) -> u64
    requires { NetSound area.now × (gate < layout.gates area.now) }
    ensures { InEachLane result (λ l. figures.answer (layout.table area.now gate) (pin_lanes l (layout.pin_count area.now gate) pins)) }
{
    answer(area::table(area, gate), area::pin_count(area, gate), pins)
}

// A gate's word worked out from its pins' words.
pub fn work_word(words: &mut [u64; area::MOST_SOURCES], area: &[u32], gate: usize)
    requires { NetSound area.now × (gate < layout.gates area.now) × (length words.old ≡ layout.most_sources) }
    ensures { WordStored area.now words.old words.new gate }
{
    let pins = pin_words(words, area, gate);
    let source = area::inputs(area) + gate;
    words[source] = gate_answer(area, gate, pins);
}

// The right values of all sources under at most 64 listed patterns.
pub fn right_words(area: &[u32], patterns: &[u32]) -> [u64; area::MOST_SOURCES]
    requires { NetSound area.now × (length patterns.now ≤ lane_count) }
    ensures { WordsHold (layout.inputs area.now + layout.gates area.now)
        (right_in (net_of area.now [] []) patterns.now) result }
{
    let gates = area::gates(area);
    let mut words = input_words(patterns, area::inputs(area));
    for gate in 0..gates {
        work_word(&mut words, area, gate);
    }
    words
}
