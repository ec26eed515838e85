// Rules 5, 6, 13 and 14 of document 01: whether a gate and a work area are well-formed, and with which number an area is refused.
#![tactic(auto)]

ghost use Rattle.std.specs.Prelude.{◌&&◌, ◌≡◌, ◌+◌, ◌-◌, ◌^◌, ◌<◌, ◌≤◌, length, get_or, take, drop, ltb};
ghost use Rattle.lists.specs.Lists.{all_zero, all_below};
ghost use Rattle.refusal.specs.Judgement.{refuse_unless};
ghost use Rattle.area.specs.Layout as layout;
ghost use Rattle.area.specs.Sum.{flip_sum};
ghost use Rattle.area.specs.Rules.{gate_shape, used_below, gate_sound, gates_sound, counts_in_range, rest_sound, sum_right, words_judgement, area_judgement};

use refusal::{Cause, Refusal};

// Rule 5, the truth table: no bit at or above 2^count. A pin count is a plain number here, asked to be at most four: `gate_shape` judges any.
fn table_fits(count: usize, table: u32) -> bool
    requires { count ≤ layout.most_pins }
    ensures { result ≡ ltb table (2 ^ 2 ^ count) }
{
    match count {
        0 => table < 2,
        1 => table < 4,
        2 => table < 16,
        3 => table < 256,
        _ => table < 65_536,
    }
}

// A bound that no word reaches, for a pin that is not asked about.
fn above(pin: u32) -> usize
    ensures { pin < result }
{
    area::index(pin) + 1
}

// Rule 5, the unused pins: each one from `count` on is zero. A case for each count, as in `pins_sound`.
fn unused_zero(count: usize, pins: [u32; 4]) -> bool
    requires { count ≤ layout.most_pins }
    ensures { result ≡ all_zero (drop count pins) }
{
    let first = above(pins[0]);
    let second = above(pins[1]);
    let third = above(pins[2]);
    match count {
        0 => pins_below(pins, 1, 1, 1, 1),
        1 => pins_below(pins, first, 1, 1, 1),
        2 => pins_below(pins, first, second, 1, 1),
        3 => pins_below(pins, first, second, third, 1),
        _ => true,
    }
}

// Rule 5.
pub fn gate_shape(count: usize, table: u32, pins: [u32; 4]) -> bool
    ensures { result ≡ gate_shape count table pins }
{
    if count > area::MOST_PINS {
        return false;
    }
    if !table_fits(count, table) {
        return false;
    }
    unused_zero(count, pins)
}

// Whether each word from index `from` up to `to` is below `limit`.
fn all_below(words: &[u32], from: usize, to: usize, limit: usize) -> bool
    requires { (from ≤ to) × (to ≤ length words.now) }
    ensures { result ≡ all_below limit (take (to - from) (drop from words.now)) }
{
    words[from..to]
        .iter()
        .all(|word| area::index(*word) < limit)
}

// Rule 6: each used pin is a source before the gate.
pub fn used_below(limit: usize, count: usize, pins: [u32; 4]) -> bool
    requires { count ≤ layout.most_pins }
    ensures { result ≡ used_below limit count pins }
{
    let second = above(pins[1]);
    let third = above(pins[2]);
    let fourth = above(pins[3]);
    match count {
        0 => true,
        1 => pins_below(pins, limit, second, third, fourth),
        2 => pins_below(pins, limit, limit, third, fourth),
        3 => pins_below(pins, limit, limit, limit, fourth),
        _ => pins_below(pins, limit, limit, limit, limit),
    }
}

// Whether each of four pins is below its own bound. Written out, so that the pins need no memory.
fn pins_below(pins: [u32; 4], first: usize, second: usize, third: usize, fourth: usize) -> bool
    ensures { result ≡ (ltb (get_or pins 0 0) first && (ltb (get_or pins 1 0) second && (ltb (get_or pins 2 0) third && ltb (get_or pins 3 0) fourth))) }
{
    area::index(pins[0]) < first
        && area::index(pins[1]) < second
        && area::index(pins[2]) < third
        && area::index(pins[3]) < fourth
}

// The pins of rules 5 and 6 at once: the used ones below `limit`, the others zero. A case for each count is the fastest way to test both.
fn pins_sound(count: usize, pins: [u32; 4], limit: usize) -> bool
    requires { count ≤ layout.most_pins }
    ensures { result ≡ (all_zero (drop count pins) && used_below limit count pins) }
{
    match count {
        0 => pins_below(pins, 1, 1, 1, 1),
        1 => pins_below(pins, limit, 1, 1, 1),
        2 => pins_below(pins, limit, limit, 1, 1),
        3 => pins_below(pins, limit, limit, limit, 1),
        _ => pins_below(pins, limit, limit, limit, limit),
    }
}

// Rule 14 for gate `j`.
fn gate_sound(area: &[u32], j: usize) -> bool
    requires { (layout.figure_index j < length area.now) × (layout.inputs area.now ≤ layout.most_inputs) }
    ensures { result ≡ gate_sound area.now j }
{
    let count = area::pin_count(area, j);
    if count > area::MOST_PINS {
        return false;
    }
    if !table_fits(count, area::table(area, j)) {
        return false;
    }
    if !pins_sound(count, area::pins(area, j), area::inputs(area) + j) {
        return false;
    }
    if area::flip(area, j) > area::LARGEST_FLIP {
        return false;
    }
    area::figure(area, j) <= area::LARGEST_FIGURE
}

// Rule 14 for every gate.
fn gates_sound(area: &[u32]) -> bool
    requires { (layout.outputs_index (layout.gates area.now) ≤ length area.now) × (layout.inputs area.now ≤ layout.most_inputs) }
    ensures { result ≡ gates_sound area.now }
{
    for j in 0..area::gates(area) {
        if !gate_sound(area, j) {
            return false;
        }
    }
    true
}

// Rules 3 and 14, the counts.
pub fn counts_in_range(inputs: usize, gates: usize, outputs: usize) -> bool
    ensures { result ≡ counts_in_range inputs gates outputs }
{
    if inputs > area::MOST_INPUTS {
        return false;
    }
    if gates > area::MOST_GATES {
        return false;
    }
    if outputs < 1 {
        return false;
    }
    outputs <= area::MOST_OUTPUTS
}

// Rule 14, the outputs: each is a source.
fn outputs_below(area: &[u32]) -> bool
    requires area_in_bounds { layout.needed (layout.gates area.now) (layout.outputs area.now) ≤ length area.now }
    requires area_bound { layout.inputs area.now ≤ layout.most_inputs }
    requires area_bound_2 { (layout.gates area.now ≤ layout.most_gates) × (layout.outputs area.now ≤ layout.most_outputs) }
    ensures { result ≡ all_below (layout.inputs area.now + layout.gates area.now) (layout.output_words area.now) }
{
    let gates = area::gates(area);
    let end = area::needed(gates, area::outputs(area));
    all_below(
        area,
        area::outputs_index(gates),
        end,
        area::inputs(area) + gates,
    )
}

// Rule 14 but for the counts and the sum.
fn rest_sound(area: &[u32]) -> bool
    requires area_in_bounds { layout.needed (layout.gates area.now) (layout.outputs area.now) ≤ length area.now }
    requires area_bound { layout.inputs area.now ≤ layout.most_inputs }
    requires area_bound_2 { (layout.gates area.now ≤ layout.most_gates) × (layout.outputs area.now ≤ layout.most_outputs) }
    ensures { result ≡ rest_sound area.now }
{
    if !gates_sound(area) {
        return false;
    }
    if !outputs_below(area) {
        return false;
    }
    if area[area::PATTERN] >= 1 << area::inputs(area) {
        return false;
    }
    area[area::RELIABILITY] as u64 <= rounding::UNITS_IN_ONE
}

// Refusals 13 and 14 of an area but for the sum. Its length by the counts is tried only when the counts are in range.
pub fn judge_words(area: &[u32]) -> Result<(), Refusal>
    ensures { result ≡ words_judgement area.now }
{
    if area.len() < area::HEAD_WORDS {
        return Err(Refusal {
            cause: Cause::AreaTooShort,
            place: 0,
        });
    }
    let gates = area::gates(area);
    let outputs = area::outputs(area);
    if !counts_in_range(area::inputs(area), gates, outputs) {
        return Err(Refusal {
            cause: Cause::AreaRule,
            place: 0,
        });
    }
    if area.len() < area::needed(gates, outputs) {
        return Err(Refusal {
            cause: Cause::AreaTooShort,
            place: 0,
        });
    }
    if !rest_sound(area) {
        return Err(Refusal {
            cause: Cause::AreaRule,
            place: 0,
        });
    }
    Ok(())
}

// Rule 14, last: two words hold the raw flip sum, and the reserved word is zero.
fn sum_right(area: &[u32], sum: u64) -> bool
    requires { (layout.head_words ≤ length area.now) × (sum ≡ flip_sum area.now) }
    ensures { result ≡ sum_right area.now }
{
    if area[area::SUM_LOW] != area::sum_low(sum) {
        return false;
    }
    if area[area::SUM_HIGH] != area::sum_high(sum) {
        return false;
    }
    area[area::RESERVED] == 0
}

// The last part of refusal 14, of an area that has passed the others.
pub fn judge_sum(area: &[u32], sum: u64) -> Result<(), Refusal>
    requires { (layout.head_words ≤ length area.now) × (sum ≡ flip_sum area.now) }
    ensures { result ≡ refuse_unless (sum_right area.now) Cause.AreaRule 0 }
{
    if sum_right(area, sum) {
        Ok(())
    } else {
        Err(Refusal {
            cause: Cause::AreaRule,
            place: 0,
        })
    }
}

// Refusals 13 and 14 of an area.
pub fn judge(area: &[u32]) -> Result<(), Refusal>
    ensures { result ≡ area_judgement area.now }
{
    judge_words(area)?;
    judge_sum(area, live::count_live(area).sum)
}
