// Rows: the failures of a source under 32 patterns. A row is worked out as a whole, in loops over its entries of which the compiler makes vector code.
#![tactic(auto)]

ghost use Rattle.std.specs.Prelude.{◌≡◌, ℕ, ◌≤◌, ◌<◌, length, get_or};
ghost use Rattle.rounding.specs.Rounding.{units_in_one, blend};
ghost use Rattle.figure.specs.Figure.{gate_step, output_step};
ghost use Rattle.area.specs.Layout as layout;
ghost use Rattle.signals.specs.Signals.{lane};
ghost use Rattle.rows.specs.Rows.{row_length, row_words, row_at, EachEntry, RowFits, RowStored, value_if};

// Patterns of a row, and the words of all rows.
pub const LANES: usize = 32;

// Entry l of a row is a failure under its pattern l.
pub type Row = [u32; LANES];

pub const ROW_WORDS: usize = LANES * area::MOST_SOURCES;

// A row of the failures that `entry` gives for each lane.
fn row_of<F: Fn(usize) -> u32>(entry: F) -> Row
    requires { (l : ℕ) → l < row_length → F.pre entry l }
    ensures { (l : ℕ) → l < row_length → F.post entry l (get_or result l 0) }
{
    let mut row = [0u32; LANES];
    for l in 0..LANES {
        row[l] = entry(l);
    }
    row
}

// The mean of two start values, each U or 0: nothing is rounded.
fn first_mean(right: bool, wrong: bool, failure: u32) -> u32
    requires { failure ≤ units_in_one }
    ensures { result ≡ blend units_in_one (value_if right) (value_if wrong) failure }
{
    match (right, wrong) {
        (true, true) => rounding::ONE,
        (true, false) => rounding::ONE - failure,
        (false, true) => failure,
        (false, false) => 0,
    }
}

// The row of a source.
pub fn load_row(rows: &[u32; ROW_WORDS], source: usize) -> Row
    requires { source < layout.most_sources }
    ensures { EachEntry result (row_at rows.now source) }
{
    row_of(|l| rows[LANES * source + l])
}

// The first fold step: bit l of `right` and of `wrong` says that the answer of lane l is wrong where the pin is right, and where it is wrong.
pub fn first_row(right: u32, wrong: u32, failures: Row) -> Row
    requires { RowFits failures }
    ensures { EachEntry result (λ l. blend units_in_one (value_if (lane l right)) (value_if (lane l wrong)) (get_or failures l 0)) }
{
    row_of(|l| first_mean((right >> l) % 2 == 1, (wrong >> l) % 2 == 1, failures[l]))
}

// A later fold step, from the rows where the pin is right and where it is wrong.
pub fn fold_row(right: Row, wrong: Row, failures: Row) -> Row
    requires { RowFits right × RowFits wrong × RowFits failures }
    ensures { EachEntry result (λ l. blend units_in_one (get_or right l 0) (get_or wrong l 0) (get_or failures l 0)) }
{
    row_of(|l| rounding::blended(right[l], wrong[l], failures[l]))
}

// The gate step on a row.
pub fn gate_row(last: Row, flip: u32) -> Row
    requires { RowFits last × (flip ≤ units_in_one) }
    ensures { EachEntry result (λ l. gate_step units_in_one (get_or last l 0) flip) }
{
    row_of(|l| figure::gate_step(last[l], flip))
}

// The output product on a row: the reliabilities after one more output, this source.
pub fn output_row(reliability: Row, rows: &[u32; ROW_WORDS], source: usize) -> Row
    requires row_fits { RowFits reliability × (source < layout.most_sources) }
    requires by_index { (l : ℕ) → l < row_length → row_at rows.now source l ≤ units_in_one }
    ensures { EachEntry result (λ l. output_step units_in_one (get_or reliability l 0) (row_at rows.now source l)) }
{
    row_of(|l| figure::output_step(reliability[l], rows[LANES * source + l]))
}

// A row stored as that of a source. By copy_from_slice average takes 1.13 times the instructions: the length is then no constant.
pub fn store_row(rows: &mut [u32; ROW_WORDS], source: usize, row: Row)
    requires { (source < layout.most_sources) × (length rows.old ≡ row_words) }
    ensures row_stored { RowStored rows.old rows.new source (λ l. get_or row l 0) }
    ensures rows_len { length rows.new ≡ row_words }
{
    for l in 0..LANES {
        rows[LANES * source + l] = row[l];
    }
}
