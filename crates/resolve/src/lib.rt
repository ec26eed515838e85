// The names of a text looked up: defined twice, undefined, and the sources of its gates by number.
#![tactic(auto)]

ghost use Rattle.std.specs.Prelude.{◌≡◌, List, ℕ, ◌+◌, ◌-◌, ◌*◌, ◌<◌, ◌≤◌, length, get_or, set};
ghost use Rattle.refusal.specs.Judgement.{Fine};
ghost use Rattle.refusal.specs.Judgement.{lowest};
ghost use Rattle.area.specs.Layout.{most_pins, most_gates};
ghost use Rattle.texts.specs.Words.{held};
ghost use Rattle.names.specs.Names.{HasWord};
ghost use Rattle.statements.specs.Lines.{PlacesTo, Lent};
ghost use Rattle.model.specs.Model.{sources};
ghost use Rattle.model.specs.Tables.{rest_at, gate_from};
ghost use Rattle.resolve.specs.Names.{again_fault, unknown_fault};
ghost use Rattle.resolve.specs.Found.{found_in, Defined, Found, Sources, Headed, Room, Clear};

use names::Words;
use refusal::{Cause, Refusal};

// The number of the first of the names that word k is; their count if none is. That both are of one text is asked here and of the public functions below,
// which take two plain `Words` and ask no more than one text did.
fn find_word(names: &Words, words: &Words, k: usize) -> usize
    requires defined { Defined names.now words.now }
    requires k_in_bounds { HasWord words.now k }
    ensures { (result ≡ found_in names.now words.now k) × (result ≤ names.now.count) }
{
    names::find(names, words.word(k))
}

// A name that is defined twice is refused at the line that defines it again.
pub fn judge_again(names: &Words) -> Result<(), Refusal>
    requires { Lent names.now }
    ensures { result ≡ again_fault (held names.now.text.now names.now.starts.now names.now.lines.now 0 names.now.count) }
{
    for i in 0..names.count {
        if names::find(names, names.word(i)) != i {
            return Err(Refusal {
                cause: Cause::TextModel,
                place: names.line(i),
            });
        }
    }
    Ok(())
}

// Looks up the `count` words from `start` on; an undefined name is refused at its line. The numbers go into a table from `base` on.
pub fn resolve(
    names: &Words,
    words: &Words,
    start: usize,
    count: usize,
    table: &mut [u16],
    base: usize,
) -> Result<(), Refusal>
    requires defined { Defined names.now words.now }
    requires places_2 { PlacesTo words.now (start + count) × (start + count ≤ length words.now.lines.now) }
    requires count_in_bounds { base + count ≤ length table.old }
    ensures by_index { (ls : List ℕ) → result ≡ unknown_fault (held words.now.text.now names.now.starts.now ls 0 names.now.count)
        (held words.now.text.now words.now.starts.now words.now.lines.now start count) }
    ensures found { result ≡ Fine → Found words.now.text.now names.now.starts.now names.now.count words.now.starts.now start count table.old
        table.new base }
{
    for i in 0..count {
        let number = find_word(names, words, start + i);
        if number == names.count {
            return Err(Refusal {
                cause: Cause::TextModel,
                place: words.line(start + i),
            });
        }
        table[base + i] = number as u16;
    }
    Ok(())
}

// The sources of one gate, whose line begins with word `head`. The tables are filled here, and lent to readers as `Sources` afterwards.
fn resolve_gate(
    names: &Words,
    words: &Words,
    head: usize,
    gate: usize,
    pins: &mut [u16],
    counts: &mut [u16],
) -> Result<(), Refusal>
    requires defined { Defined names.now words.now }
    requires lent { Lent words.now }
    requires head_lt_n { (head < words.now.count) × (1 ≤ rest_at words.now.lines.now words.now.count head)
        × (rest_at words.now.lines.now words.now.count head ≤ most_pins + 1) }
    requires gate_lt_most_gates { (gate < most_gates) × Room pins.old counts.old }
    ensures by_index { (ls : List ℕ) → result ≡ unknown_fault (held words.now.text.now names.now.starts.now ls 0 names.now.count)
        (sources (gate_from words.now.text.now words.now.starts.now words.now.lines.now words.now.count head)) }
    ensures found { result ≡ Fine → Found words.now.text.now names.now.starts.now names.now.count words.now.starts.now (head + 1)
        (rest_at words.now.lines.now words.now.count head - 1) pins.old pins.new (most_pins * gate) }
    ensures counts_after { counts.new ≡ set counts.old gate (rest_at words.now.lines.now words.now.count head - 1) }
{
    let count = statements::line_rest(words, head) - 1;
    counts[gate] = count as u16;
    resolve(names, words, head + 1, count, pins, area::MOST_PINS * gate)
}

// The sources of each gate in turn, four entries a gate. Its line begins with the word that `heads` gives it.
pub fn resolve_gates(
    names: &Words,
    words: &Words,
    heads: &[u16],
    pins: &mut [u16],
    counts: &mut [u16],
) -> Result<(), Refusal>
    requires defined { Defined names.now words.now }
    requires lent { Lent words.now }
    requires gates_le_most_gates { (length heads.now ≤ most_gates) × Headed words.now.lines.now words.now.count heads.now (length heads.now) }
    requires room { Room pins.old counts.old × Clear pins.old counts.old }
    ensures by_index { (ls : List ℕ) → result ≡ lowest (λ (j : ℕ). unknown_fault (held words.now.text.now names.now.starts.now ls 0 names.now.count)
        (sources (gate_from words.now.text.now words.now.starts.now words.now.lines.now words.now.count (get_or heads.now j 0)))) (length heads.now) }
    ensures sources { result ≡ Fine → (ls : List ℕ) → Sources (held words.now.text.now names.now.starts.now ls 0 names.now.count)
        words.now.text.now words.now.starts.now words.now.lines.now words.now.count heads.now pins.new counts.new (length heads.now) }
{
    for j in 0..heads.len() {
        resolve_gate(names, words, names::entry(heads, j), j, pins, counts)?;
    }
    Ok(())
}
