// The model of a text: which words are inputs, outputs and gates, and how many there may be.
#![tactic(auto)]

ghost use Rattle.std.specs.Prelude.{◌≡◌, ℕ, ◌+◌, ◌<◌, ◌≤◌, true, cond, List, length, get_or, set, take, drop};
ghost use Rattle.std.proofs.lemmas.List.Edits.{sets};
ghost use Rattle.texts.specs.Words.{held};
ghost use Rattle.names.specs.Names.{HasWord};
ghost use Rattle.model.specs.Model.{same_key, gates_key, listed, gates_of};
ghost use Rattle.model.specs.Counts.{over_fault};
ghost use Rattle.model.specs.Tables.{key_in, run_start, run_many, lines_in, LentFew, Collected, Heads};

use names::Words;
use refusal::{Cause, Refusal};
use statements::Keyword;

// The keyword that word k is.
pub fn key_at(words: &Words, k: usize) -> Keyword
    requires { HasWord words.now k }
    ensures { result ≡ key_in words.now k }
{
    statements::keyword_of(words.word(k))
}

// A line's names: a gate's own is the last word, inputs and outputs are all words after the keyword.
fn run_start(wanted: Keyword, k: usize, rest: usize) -> usize
    requires { k + rest < 65_536 }
    ensures { result ≡ run_start wanted k rest }
{
    if wanted == Keyword::Names {
        k + rest
    } else {
        k + 1
    }
}

fn run_many(key: Keyword, wanted: Keyword, rest: usize) -> usize
    ensures { result ≡ run_many key wanted rest }
{
    if key != wanted {
        0
    } else if wanted == Keyword::Names {
        1
    } else {
        rest
    }
}

// More than `most` names of a keyword are refused at the line of the first past them.
pub fn judge_count(words: &Words, wanted: Keyword, most: usize) -> Result<(), Refusal>
    requires { LentFew words.now × (most < 65_536) }
    ensures { result ≡ over_fault (listed wanted (lines_in words.now 0)) most }
{
    let mut left = most;
    for line in statements::lines_from(words, 0) {
        let many = run_many(key_at(words, line.first), wanted, line.rest);
        if many > left {
            return Err(Refusal {
                cause: Cause::TextModel,
                place: words.line(line.first),
            });
        }
        left -= many;
    }
    Ok(())
}

// The `many` entries from `start` on, put into a table after `count` others. Entry by entry: with `copy_from_slice` the library for C would need `memmove`
// from outside, which it needs for nothing else.
fn copy(from: &[u16], start: usize, many: usize, table: &mut [u16], count: usize)
    requires { (start + many ≤ length from.now) × (count + many ≤ length table.old) }
    ensures { table.new ≡ sets table.old count (take many (drop start from.now)) }
{
    for i in 0..many {
        table[count + i] = from[start + i];
    }
}

// A run of words, put into the tables of names after `count` others; how many there are then. Most lines of a long cover have none, and cost no call.
// Two tables while they are filled, as `held` and `Collected` speak of two; lent as one `Words` afterwards.
fn enter(
    words: &Words,
    start: usize,
    many: usize,
    names: &mut [u16],
    numbers: &mut [u16],
    count: usize,
) -> usize
    requires many_in_bounds { (start + many ≤ length words.now.starts.now) × (start + many ≤ length words.now.lines.now) }
    requires many_in_bounds_2 { (count + many ≤ length names.old) × (count + many ≤ length numbers.old) }
    requires inside { (i : ℕ) → i < many → get_or words.now.starts.now (start + i) 0 < length words.now.text.now }
    ensures { Collected words.now.text.now names.old numbers.old count
        (held words.now.text.now words.now.starts.now words.now.lines.now start many) names.new numbers.new result }
{
    if many == 0 {
        return count;
    }
    copy(words.starts, start, many, names, count);
    copy(words.lines, start, many, numbers, count);
    count + many
}

// The names that the lines of a keyword list, put into tables after `from` others; how many there are then.
pub fn collect(
    words: &Words,
    wanted: Keyword,
    names: &mut [u16],
    numbers: &mut [u16],
    from: usize,
) -> usize
    requires places { LentFew words.now }
    requires n_in_bounds { from + length (listed wanted (lines_in words.now 0)) ≤ length names.old }
    requires names_in_bounds { length names.old ≤ length numbers.old }
    ensures { Collected words.now.text.now names.old numbers.old from
        (listed wanted (lines_in words.now 0)) names.new numbers.new result }
{
    let mut count = from;
    for line in statements::lines_from(words, 0) {
        let many = run_many(key_at(words, line.first), wanted, line.rest);
        count = enter(
            words,
            run_start(wanted, line.first, line.rest),
            many,
            names,
            numbers,
            count,
        );
    }
    count
}

// Enters word k as the beginning of a gate's line, if it is `.names`.
fn enter_head(heads: &mut [u16], count: usize, key: Keyword, k: usize) -> usize
    requires count_in_bounds { same_key key gates_key ≡ true → count < length heads.old }
    requires k_bound { (k < 65_536) × (count < 65_536) }
    ensures value { result ≡ count + cond (same_key key gates_key) 1 0 }
    ensures heads_after { heads.new ≡ cond (same_key key gates_key) (set heads.old count k) heads.old }
{
    if key == Keyword::Names {
        heads[count] = k as u16;
        return count + 1;
    }
    count
}

// The word that begins each gate's line; how many gates there are.
pub fn heads(words: &Words, heads: &mut [u16]) -> usize
    requires places { LentFew words.now }
    requires n_in_bounds { length (gates_of (lines_in words.now 0)) ≤ length heads.old }
    ensures value { result ≡ length (gates_of (lines_in words.now 0)) }
    ensures heads { Heads words.now.text.now words.now.starts.now words.now.lines.now words.now.count heads.new result }
    ensures heads_len_unchanged { length heads.new ≡ length heads.old }
{
    let mut count = 0;
    for line in statements::lines_from(words, 0) {
        count = enter_head(heads, count, key_at(words, line.first), line.first);
    }
    count
}
