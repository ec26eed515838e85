// Cover lines, and the tables of gates.
#![tactic(auto)]

ghost use Rattle.std.specs.Prelude.{◌≡◌, ◌+◌, ◌*◌, ◌^◌, ◌<◌, ◌≤◌, length, get_or};
ghost use Rattle.figure.specs.Figure.{bit_of};
ghost use Rattle.area.specs.Layout.{most_pins};
ghost use Rattle.model.specs.Model.{cover_of};
ghost use Rattle.model.specs.Tables.{lines_in, LentFew};
ghost use Rattle.covers.specs.Cover.{byte_meets, meets, some_meets, ending_of, table_of, cover_table};

use names::Words;
use statements::Keyword;

// What a byte makes of the rows met by those before it: with a 0 at its source they stay where they are, with a 1 they stand `above` times as high.
#[tactic(auto, unfolding(crate::specs::Cover::byte_meets))]
fn factor(b: u8, above: usize) -> usize
    requires { above < 65_536 }
    ensures { result ≡ bit_of (byte_meets b 0) + above * bit_of (byte_meets b 1) }
{
    match b {
        b'-' => 1 + above,
        b'0' => 1,
        b'1' => above,
        _ => 0,
    }
}

// The byte of a line for source i; a dash past the line's end.
fn byte_for(line: &[u8], i: usize) -> u8
    ensures { result ≡ get_or line.now i 45 }
{
    line.get(i).copied().unwrap_or(b'-')
}

// The rows of a table with `width` pins that a line meets: bit i is row i. Each source doubles the rows.
fn line_rows(line: &[u8], width: usize) -> usize
    requires { width ≤ most_pins }
    ensures { result ≡ table_of width (meets line.now) }
{
    let mut rows = 1;
    let mut above = 2;
    for i in 0..width {
        rows *= factor(byte_for(line, i), above);
        above *= above;
    }
    rows
}

// The rows that some line of the cover that begins at word `from` meets.
// No `for` over the walk: that counts the words of a line before it gives the line, also of the one that ends the cover, which may be far longer.
fn cover_rows(words: &Words, from: usize, width: usize) -> usize
    requires { LentFew words.now × (from ≤ words.now.count) × (width ≤ most_pins) }
    ensures { result ≡ table_of width (some_meets (cover_of (lines_in words.now from))) }
{
    let mut rows = 0;
    let mut at = from;
    while at < words.count {
        if model::key_at(words, at) != Keyword::Other {
            return rows;
        }
        rows |= line_rows(words.word(at), width);
        at += statements::line_rest(words, at) + 1;
    }
    rows
}

// What the lines of the cover that begins at word `from` end in, if there are any.
fn ending(words: &Words, from: usize) -> Option<bool>
    requires { LentFew words.now × (from ≤ words.now.count) }
    ensures { result ≡ ending_of (cover_of (lines_in words.now from)) }
{
    if from == words.count || model::key_at(words, from) != Keyword::Other {
        return None;
    }
    statements::value_at(words, from + statements::line_rest(words, from))
}

// The table that is 1 in every row.
fn all_rows(width: usize) -> usize
    requires { width ≤ most_pins }
    ensures { result + 1 ≡ 2 ^ 2 ^ width }
{
    (1 << (1usize << width)) - 1
}

// The table of a gate with `width` pins whose cover begins at word `from`. An empty cover ends in neither value: no row is met, and its table is 0.
pub fn table(words: &Words, from: usize, width: usize) -> usize
    requires { LentFew words.now × (from ≤ words.now.count) × (width ≤ most_pins) }
    ensures value { result ≡ cover_table width (cover_of (lines_in words.now from)) }
    ensures upper_bound { result < 65_536 }
{
    let rows = cover_rows(words, from, width);
    if ending(words, from) == Some(false) {
        all_rows(width) - rows
    } else {
        rows
    }
}
