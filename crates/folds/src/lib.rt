// A gate's failures in a row of 32 patterns, by the pins that may fail. Right values stand in words of 64 patterns; entry l of a row goes with lane
// shift + l, so that a word has two rows.
#![tactic(auto)]

ghost use Rattle.std.specs.Prelude.{◌≡◌, ℕ, suc, ◌+◌, ◌≤◌, ◌<◌, length};
ghost use Rattle.rounding.specs.Rounding.{units_in_one};
ghost use Rattle.area.specs.Layout as layout;
ghost use Rattle.area.specs.Rules.{NetSound};
ghost use Rattle.signals.specs.Signals.{lane, pin_lanes};
ghost use Rattle.rows.specs.Rows.{row_length, row_words, EachEntry, RowStored};
ghost use Rattle.folds.specs.Gates.{RowsReady, RightHere, failure_from};
ghost use Rattle.folds.specs.Failing.{wrong_in, InvertedAt, InputsBelow, FailingEnd, RightFor, last_in};

// The lowest pin of a gate that may fail, which is to say reads no input; the pin count where there is none. A number here and below, and no Option, as
// `InputsBelow` and `FailingEnd` have it.
fn lowest_failing(area: &[u32], gate: usize) -> usize
    requires { NetSound area.now × (gate < layout.gates area.now) }
    ensures { InputsBelow area.now gate result }
{
    let inputs = area::inputs(area);
    let count = area::pin_count(area, gate);
    for i in 0..count {
        if inputs <= area::pin(area, gate, i) {
            return i;
        }
    }
    count
}

// One more than the highest pin that may fail; 0 where there is none.
fn failing_end(area: &[u32], gate: usize) -> usize
    requires { NetSound area.now × (gate < layout.gates area.now) }
    ensures { FailingEnd area.now gate result }
{
    let inputs = area::inputs(area);
    let count = area::pin_count(area, gate);
    for last in (0..count).rev() {
        if inputs <= area::pin(area, gate, last) {
            return last + 1;
        }
    }
    0
}

// Pin words of which that of one pin is inverted.
fn inverted(pins: [u64; area::MOST_PINS], number: usize) -> [u64; area::MOST_PINS]
    requires { number < layout.most_pins }
    ensures { InvertedAt number pins result }
{
    let mut wrong = pins;
    wrong[number] = wrong[number] ^ signals::ALL;
    wrong
}

// The lanes from `shift` on in which a gate with these pin words does not answer what `right` has.
fn wrong_lanes(
    area: &[u32],
    gate: usize,
    right: u64,
    shift: usize,
    pins: [u64; area::MOST_PINS],
) -> u32
    requires { NetSound area.now × (gate < layout.gates area.now) × (shift ≤ 32) }
    ensures { (l : ℕ) → l < row_length → lane l result ≡ wrong_in area.now gate right (shift + l)
        (pin_lanes (shift + l) (layout.pin_count area.now gate) pins) }
{
    (((signals::gate_answer(area, gate, pins) ^ right) >> shift) % 4_294_967_296) as u32
}

// The last value of the fold in each lane over the pins up to this one, the lowest that may fail: its fold is exact. `wrong` has the lanes in which the answer
// is wrong with these pin words, none where they are the right ones.
fn first_values(
    rows: &[u32; rows::ROW_WORDS],
    area: &[u32],
    gate: usize,
    right: u64,
    shift: usize,
    pins: [u64; area::MOST_PINS],
    number: usize,
    wrong: u32,
) -> rows::Row
    requires rows_ready { RowsReady area.now rows.now gate × (shift ≤ 32) }
    requires inputs_below { InputsBelow area.now gate number × (number < layout.pin_count area.now gate) }
    requires wrong_here { (l : ℕ) → l < row_length → lane l wrong ≡ wrong_in area.now gate right (shift + l)
        (pin_lanes (shift + l) (layout.pin_count area.now gate) pins) }
    ensures { EachEntry result (last_in area.now rows.now gate right shift pins (suc number)) }
{
    let turned = inverted(pins, number);
    rows::first_row(
        wrong,
        wrong_lanes(area, gate, right, shift, turned),
        rows::load_row(rows, area::pin(area, gate, number)),
    )
}

// The same with any pin words.
fn last_lowest(
    rows: &[u32; rows::ROW_WORDS],
    area: &[u32],
    gate: usize,
    right: u64,
    shift: usize,
    pins: [u64; area::MOST_PINS],
    number: usize,
) -> rows::Row
    requires rows_ready { RowsReady area.now rows.now gate × (shift ≤ 32) }
    requires inputs_below { InputsBelow area.now gate number × (number < layout.pin_count area.now gate) }
    ensures { EachEntry result (last_in area.now rows.now gate right shift pins (suc number)) }
{
    let wrong = wrong_lanes(area, gate, right, shift, pins);
    first_values(rows, area, gate, right, shift, pins, number, wrong)
}

// The last values over the first two, three and four pins. A pin that reads an input drops out.
// Three functions, no struct: average takes 1.13 to 1.27 times as long by one over the count, up to 1.14 times by closures, 1.15 by a struct with references.
fn last_two(
    rows: &[u32; rows::ROW_WORDS],
    area: &[u32],
    gate: usize,
    right: u64,
    shift: usize,
    pins: [u64; area::MOST_PINS],
    lowest: usize,
) -> rows::Row
    requires rows_ready { RowsReady area.now rows.now gate × (shift ≤ 32) }
    requires inputs_below { InputsBelow area.now gate lowest × (lowest < 2) × (2 ≤ layout.pin_count area.now gate) }
    ensures { EachEntry result (last_in area.now rows.now gate right shift pins 2) }
{
    if lowest == 1 {
        return last_lowest(rows, area, gate, right, shift, pins, 1);
    }
    let source = area::pin(area, gate, 1);
    if source < area::inputs(area) {
        return last_lowest(rows, area, gate, right, shift, pins, 0);
    }
    let wrong = inverted(pins, 1);
    rows::fold_row(
        last_lowest(rows, area, gate, right, shift, pins, 0),
        last_lowest(rows, area, gate, right, shift, wrong, 0),
        rows::load_row(rows, source),
    )
}

fn last_three(
    rows: &[u32; rows::ROW_WORDS],
    area: &[u32],
    gate: usize,
    right: u64,
    shift: usize,
    pins: [u64; area::MOST_PINS],
    lowest: usize,
) -> rows::Row
    requires rows_ready { RowsReady area.now rows.now gate × (shift ≤ 32) }
    requires inputs_below { InputsBelow area.now gate lowest × (lowest < 3) × (3 ≤ layout.pin_count area.now gate) }
    ensures { EachEntry result (last_in area.now rows.now gate right shift pins 3) }
{
    if lowest == 2 {
        return last_lowest(rows, area, gate, right, shift, pins, 2);
    }
    let source = area::pin(area, gate, 2);
    if source < area::inputs(area) {
        return last_two(rows, area, gate, right, shift, pins, lowest);
    }
    let wrong = inverted(pins, 2);
    rows::fold_row(
        last_two(rows, area, gate, right, shift, pins, lowest),
        last_two(rows, area, gate, right, shift, wrong, lowest),
        rows::load_row(rows, source),
    )
}

fn last_four(
    rows: &[u32; rows::ROW_WORDS],
    area: &[u32],
    gate: usize,
    right: u64,
    shift: usize,
    pins: [u64; area::MOST_PINS],
    lowest: usize,
) -> rows::Row
    requires rows_ready { RowsReady area.now rows.now gate × (shift ≤ 32) }
    requires inputs_below { InputsBelow area.now gate lowest × (lowest < 4) × (4 ≤ layout.pin_count area.now gate) }
    ensures { EachEntry result (last_in area.now rows.now gate right shift pins 4) }
{
    if lowest == 3 {
        return last_lowest(rows, area, gate, right, shift, pins, 3);
    }
    let source = area::pin(area, gate, 3);
    if source < area::inputs(area) {
        return last_three(rows, area, gate, right, shift, pins, lowest);
    }
    let wrong = inverted(pins, 3);
    rows::fold_row(
        last_three(rows, area, gate, right, shift, pins, lowest),
        last_three(rows, area, gate, right, shift, wrong, lowest),
        rows::load_row(rows, source),
    )
}

// The last values over the pins before `end`, where pin end - 1 is the highest that may fail and the pin words are right.
fn last_values(
    rows: &[u32; rows::ROW_WORDS],
    area: &[u32],
    gate: usize,
    right: u64,
    shift: usize,
    pins: [u64; area::MOST_PINS],
    lowest: usize,
    end: usize,
) -> rows::Row
    requires rows_ready { RowsReady area.now rows.now gate × (shift ≤ 32) }
    requires inputs_below { InputsBelow area.now gate lowest × (lowest < end) × (end ≤ layout.pin_count area.now gate) }
    requires right_for { RightFor area.now gate right shift pins }
    ensures { EachEntry result (last_in area.now rows.now gate right shift pins end) }
{
    if lowest + 1 == end {
        return first_values(rows, area, gate, right, shift, pins, lowest, 0);
    }
    match end {
        2 => last_two(rows, area, gate, right, shift, pins, lowest),
        3 => last_three(rows, area, gate, right, shift, pins, lowest),
        _ => last_four(rows, area, gate, right, shift, pins, lowest),
    }
}

// A gate's failures in each lane. Where no pin may fail they are its flip.
fn failures(
    rows: &[u32; rows::ROW_WORDS],
    words: &[u64; area::MOST_SOURCES],
    area: &[u32],
    gate: usize,
    shift: usize,
) -> rows::Row
    requires rows_ready { RowsReady area.now rows.now gate × (shift ≤ 32) × (layout.flip area.now gate ≤ units_in_one) }
    requires right_here { RightHere area.now words.now shift gate }
    ensures { EachEntry result (failure_from area.now words.now rows.now shift gate) }
{
    let flip = area::flip(area, gate);
    let end = failing_end(area, gate);
    if end == 0 {
        return [flip; rows::LANES];
    }
    let lowest = lowest_failing(area, gate);
    let pins = signals::pin_words(words, area, gate);
    let right = signals::gate_word(words, area, gate);
    rows::gate_row(
        last_values(rows, area, gate, right, shift, pins, lowest, end),
        flip,
    )
}

// A gate worked out: the row of its source.
pub fn work_row(
    rows: &mut [u32; rows::ROW_WORDS],
    words: &[u64; area::MOST_SOURCES],
    area: &[u32],
    gate: usize,
    shift: usize,
)
    requires rows_ready { RowsReady area.now rows.old gate × (shift ≤ 32) × (layout.flip area.now gate ≤ units_in_one) }
    requires right_here { RightHere area.now words.now shift gate × (length rows.old ≡ row_words) }
    ensures row_stored { RowStored rows.old rows.new (layout.inputs area.now + gate)
        (failure_from area.now words.now rows.old shift gate) }
    ensures rows_len { length rows.new ≡ row_words }
{
    let row = failures(rows, words, area, gate, shift);
    rows::store_row(rows, area::inputs(area) + gate, row);
}
