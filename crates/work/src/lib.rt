// Working out on a work area: reading a source, working out gates, dependents and the reliability. Every function here asks for an area whose netlist
// and figures keep rule 14 (`Workable`); the calls judge the area first. Words 5 to 7, the raw flip sum and the
// reserved word, are neither read nor written here. `Workable` stands in each contract and in no type: the area is the slice that the caller lends.
#![tactic(auto)]

ghost use Rattle.std.specs.Prelude.{◌≡◌, map, ℕ, ◌+◌, ◌-◌, ◌/◌, ◌<◌, ◌≤◌, get_or};
ghost use Rattle.rounding.specs.Rounding.{units_in_one};
ghost use Rattle.figure.specs.Steps.{first_pins, Split};
ghost use Rattle.area.specs.Layout.{most_pins, most_inputs, most_patterns, most_sources, largest_flip, inputs, gates, used_pins, output_words, source_word};
ghost use Rattle.area.specs.Rules.{Workable};
ghost use Rattle.area.specs.Figures.{product_from};
ghost use Rattle.work.specs.Work.{gate_figure, work_gate, work_gates, reliability_now, work_reliability, work_all};
ghost use Rattle.work.specs.Work.{reads_marked, work_marked, mark_of, invert_bit, toggle_words, set_words};

// A source's word, 2 × failure + right value.
fn source_word(area: &[u32], source: usize) -> u32
    requires workable { Workable area.now }
    requires source_bound { source < inputs area.now + gates area.now }
    ensures { result ≡ source_word area.now source }
{
    let n = area::inputs(area);
    if source < n {
        (area[area::PATTERN] >> source) % 2
    } else {
        area::figure(area, source - n)
    }
}

// A gate's pins as the fold takes them. A pin whose source cannot fail only moves the index that the others start from; those have words and bits.
// Two arrays and no array of structs, since the public contract of figure::pins_word has them apart.
#[derive(Clone, Copy)]
struct Pins {
    start: u32,
    kept: usize,
    words: [u32; area::MOST_PINS],
    // What a pin adds to the table's index where its value is 1.
    bits: [u32; area::MOST_PINS],
}

// The used pins of a gate.
fn split_pins(area: &[u32], gate: usize) -> Pins
    requires workable { Workable area.now }
    requires gate_bound { gate < gates area.now }
    ensures kept_le_most_pins { (result.kept ≤ most_pins) × ((i : ℕ) → i < result.kept → get_or result.words i 0 / 2 ≤ units_in_one) }
    ensures split { Split (map (source_word area.now) (used_pins area.now gate)) result.start (first_pins result.kept result.words result.bits) }
{
    let count = area::pin_count(area, gate);
    let mut start = 0;
    let mut kept = 0;
    let mut words = [0u32; area::MOST_PINS];
    let mut bits = [0u32; area::MOST_PINS];
    let mut bit = 1;
    for i in 0..count {
        let word = source_word(area, area::pin(area, gate, i));
        if word < 2 {
            start += word % 2 * bit;
        } else {
            words[kept] = word;
            bits[kept] = bit;
            kept += 1;
        }
        bit *= 2;
    }
    Pins {
        start,
        kept,
        words,
        bits,
    }
}

// A gate's figure word by the rule, from the words held.
fn gate_figure(area: &[u32], gate: usize) -> u32
    requires workable { Workable area.now }
    requires gate_bound { gate < gates area.now }
    ensures { result ≡ gate_figure area.now gate }
{
    let pins = split_pins(area, gate);
    figure::pins_word(
        area::table(area, gate),
        pins.start,
        pins.kept,
        pins.words,
        pins.bits,
        area::flip(area, gate),
    )
}

// The gate worked out again.
pub fn work_gate(area: &mut [u32], gate: usize)
    requires workable { Workable area.old }
    requires gate_bound { gate < gates area.old }
    ensures { area.new ≡ work_gate area.old gate }
{
    let word = gate_figure(area, gate);
    area::store_figure(area, gate, word);
}

// Every gate worked out, in order.
fn work_gates(area: &mut [u32])
    requires { Workable area.old }
    ensures { area.new ≡ work_gates area.old 0 (gates area.old) }
{
    let count = area::gates(area);
    for gate in 0..count {
        work_gate(area, gate);
    }
}

// The product over the outputs in order, from `product` on and from the words held.
pub fn output_product(area: &[u32], product: u32) -> u32
    requires { Workable area.now × (product ≤ units_in_one) }
    ensures { result ≡ product_from (source_word area.now) product (output_words area.now) }
{
    let start = area::outputs_index(area::gates(area));
    let count = area::outputs(area);
    let mut reliability = product;
    for k in 0..count {
        let word = source_word(area, area::index(area[start + k]));
        reliability = figure::output_step(reliability, word / 2);
    }
    reliability
}

// The reliability by the rule.
fn reliability_now(area: &[u32]) -> u32
    requires { Workable area.now }
    ensures { result ≡ reliability_now area.now }
{
    output_product(area, rounding::ONE)
}

fn work_reliability(area: &mut [u32])
    requires { Workable area.old }
    ensures { area.new ≡ work_reliability area.old }
{
    let reliability = reliability_now(area);
    area[area::RELIABILITY] = reliability;
}

// Every figure worked out afresh.
pub fn work_all(area: &mut [u32])
    requires { Workable area.old }
    ensures { area.new ≡ work_all area.old }
{
    work_gates(area);
    work_reliability(area);
}

// Whether one of the gate's used pins reads a marked source.
fn reads_marked(area: &[u32], marks: &[u8; area::MOST_SOURCES], gate: usize) -> bool
    requires workable { Workable area.now }
    requires gate_bound { gate < gates area.now }
    ensures { result ≡ reads_marked marks.now (used_pins area.now gate) }
{
    let count = area::pin_count(area, gate);
    for i in 0..count {
        if marks[area::pin(area, gate, i)] == 1 {
            return true;
        }
    }
    false
}

// The gates from `from` on that read a marked source, directly or through other gates, worked out in order.
fn work_marked(area: &mut [u32], marks: [u8; area::MOST_SOURCES], from: usize)
    requires workable { Workable area.old }
    requires from_bound { from ≤ gates area.old }
    ensures { area.new ≡ work_marked area.old marks from (gates area.old - from) }
{
    let n = area::inputs(area);
    let count = area::gates(area);
    let mut marks = marks;
    for gate in from..count {
        if reads_marked(area, &marks, gate) {
            work_gate(area, gate);
            marks[n + gate] = 1;
        }
    }
}

// The marks of all sources with one set.
fn mark_of(source: usize) -> [u8; area::MOST_SOURCES]
    requires { source < most_sources }
    ensures { result ≡ mark_of source }
{
    let mut marks = [0u8; area::MOST_SOURCES];
    marks[source] = 1;
    marks
}

// A pattern with bit `input` inverted.
fn inverted_bit(pattern: u32, input: usize) -> u32
    requires { (input < most_inputs) × (pattern < most_patterns) }
    ensures { result ≡ invert_bit pattern input }
{
    let bit = 1 << input;
    if (pattern >> input) % 2 == 1 {
        pattern - bit
    } else {
        pattern + bit
    }
}

// An input toggled: its bit inverted, then the gates behind it and the reliability worked out.
pub fn toggle(area: &mut [u32], input: usize)
    requires workable { Workable area.old }
    requires input_bound { input < inputs area.old }
    ensures { area.new ≡ toggle_words area.old input }
{
    let pattern = inverted_bit(area[area::PATTERN], input);
    area[area::PATTERN] = pattern;
    work_marked(area, mark_of(input), 0);
    work_reliability(area);
}

// A gate's flip set: the gate, those that depend on it and the reliability worked out.
pub fn set_units(area: &mut [u32], gate: usize, units: u32)
    requires workable { Workable area.old }
    requires gate_bound { gate < gates area.old }
    requires units_le_largest_flip { units ≤ largest_flip }
    ensures { area.new ≡ set_words area.old gate units }
{
    let source = area::inputs(area) + gate;
    area::store_flip(area, gate, units);
    work_gate(area, gate); // before the gates that read it
    work_marked(area, mark_of(source), gate + 1);
    work_reliability(area);
}
