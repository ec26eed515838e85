// The walk over all patterns of the call "average", on an area that can be worked out, and the test of the weights, refusal 12.
#![tactic(auto)]

ghost use Rattle.std.specs.Prelude.{◌≡◌, true, false, List, ℕ, ◌+◌, ◌*◌, ◌/◌, ◌%◌, ◌^◌, ◌<◌, ◌≤◌, eqb, length, get_or};
ghost use Rattle.lists.specs.Lists.{sum_below, all_zero};
ghost use Rattle.refusal.specs.Judgement.{Fine, lowest};
ghost use Rattle.rounding.specs.Rounding.{units_in_one};
ghost use Rattle.area.specs.Layout as layout;
ghost use Rattle.area.specs.Rules.{NetSound, Workable};
ghost use Rattle.area.specs.Figures.{product_from};
ghost use Rattle.signals.specs.Signals.{lane_count};
ghost use Rattle.rows.specs.Rows.{row_length, EachEntry, RowFits};
ghost use Rattle.work.specs.Work.{work_all};
ghost use Rattle.calls.specs.Judgements.{weights_judgement, WeightsFit};
ghost use Rattle.calls.specs.Calls.{average_of};
ghost use Rattle.average.specs.WeightedSum.{weighted_to};
ghost use Rattle.plan.specs.Plan.{row_bits, NextLive};
ghost use Rattle.average.specs.Blocks.{row_count, LiveWords, ValuesFrom, row_word, Block, OutputsFit};
ghost use Rattle.average.specs.Walked.{Planned, RowsFor, walked_to, RowRight};

use refusal::{Cause, Refusal};

// The number of no row: every source tells it from each row that there is.
pub const NO_ROW: usize = area::MOST_PATTERNS / rows::LANES;

// How many patterns there are.
pub fn pattern_count(inputs: usize) -> usize
    requires { inputs ≤ layout.most_inputs }
    ensures { (result ≡ 2 ^ inputs) × (0 < result) × (result ≤ layout.most_patterns) }
{
    1 << inputs
}

fn all_zero(weights: &[u32]) -> bool
    ensures { result ≡ all_zero weights.now }
{
    weights.iter().all(|weight| *weight == 0)
}

// Refusal 12 in its order: the length, then the lowest weight that is too large, then no weight at all.
pub fn judge_weights(inputs: usize, weights: &[u32]) -> Result<(), Refusal>
    requires { inputs ≤ layout.most_inputs }
    ensures { result ≡ weights_judgement inputs weights.now }
{
    if weights.len() != 1 << inputs {
        return Err(Refusal {
            cause: Cause::WrongWeights,
            place: 0,
        });
    }
    refusal::judge_each(weights, area::LARGEST_WEIGHT, Cause::WrongWeights)?;
    if all_zero(weights) {
        return Err(Refusal {
            cause: Cause::WrongWeights,
            place: 0,
        });
    }
    Ok(())
}

fn total_weight(weights: &[u32]) -> u64
    requires { length weights.now ≤ layout.most_patterns }
    ensures { result ≡ sum_below (length weights.now) (λ q. get_or weights.now q 0) }
{
    let mut total = 0;
    for weight in weights {
        total += u64::from(*weight);
    }
    total
}

// The reliabilities in a row: the product over the outputs in order.
pub fn reliability_row(rows: &[u32; rows::ROW_WORDS], area: &[u32]) -> [u32; rows::LANES]
    requires { NetSound area.now × OutputsFit area.now rows.now }
    ensures each_entry { EachEntry result (λ l. product_from (row_word rows.now l) units_in_one (layout.output_words area.now)) }
    ensures row_fits { RowFits result }
{
    let mut row = [rounding::ONE; rows::LANES];
    for k in 0..area::outputs(area) {
        let source = area::index(area::output(area, k));
        // Tried as one line: a call's array laid straight in a local that it reads has no generated proof.
        let next = rows::output_row(row, rows, source);
        row = next;
    }
    row
}

// The patterns of a word from `first` on; after the last comes pattern 0 again.
pub fn block_patterns(inputs: usize, first: usize) -> [u32; signals::LANES]
    requires { (inputs ≤ layout.most_inputs) × (first ≤ layout.most_patterns) }
    ensures result_len { length result ≡ lane_count }
    ensures by_index { (l : ℕ) → l < lane_count → get_or result l 0 ≡ (first + l) % 2 ^ inputs }
{
    let mut patterns = [0u32; signals::LANES];
    for (l, pattern) in patterns.iter_mut().enumerate() {
        *pattern = ((first + l) % (1 << inputs)) as u32;
    }
    patterns
}

// A source does not tell two rows apart: their numbers differ at most in bits that it does not see.
fn same_row(unseen: &[usize; area::MOST_SOURCES], source: usize, held: usize, number: usize) -> bool
    requires { (source < layout.most_sources) × (get_or unseen.now source 0 ≤ row_bits) }
    ensures { result ≡ eqb (held / 2 ^ get_or unseen.now source 0) (number / 2 ^ get_or unseen.now source 0) }
{
    held >> unseen[source] == number >> unseen[source]
}

// The right values of the inputs and of the live gates under 64 patterns. Not inlined: its array is on the stack only while it works. It takes no `Walk`,
// which would have to stand in memory for it: the arrays that it names would be copied there, 183 KB of stack in place of 167.
#[inline(never)]
pub fn live_words(
    area: &[u32],
    next: &[usize; area::MOST_SOURCES],
    patterns: &[u32],
) -> [u64; area::MOST_SOURCES]
    requires { NetSound area.now × NextLive area.now next.now 0 × (length patterns.now ≤ lane_count) }
    ensures { LiveWords area.now patterns.now result (layout.gates area.now) }
{
    let count = area::gates(area);
    let mut words = [0u64; area::MOST_SOURCES];
    signals::write_inputs(&mut words, patterns, area::inputs(area));
    // The table links each live gate to the next: no range has them, and an iterator of them would be longer than the three lines that follow.
    let mut gate = next[0];
    while gate < count {
        signals::work_word(&mut words, area, gate);
        gate = next[gate + 1];
    }
    words
}

// What a walk over all patterns of an area knows beforehand: from each gate on the lowest live one, and the bits of a row's number that each source
// does not see.
#[derive(Clone, Copy)]
struct Walk<'a> {
    area: &'a [u32],
    next: &'a [usize; area::MOST_SOURCES],
    unseen: &'a [usize; area::MOST_SOURCES],
}

// The rows of all sources, and the number of the row of patterns that they have been worked out for. Of which area and plan they are is said in contracts:
// those are lent by themselves, and a struct of both would have their arrays on the stack twice.
#[derive(Drop)]
pub struct HeldRows {
    pub rows: [u32; rows::ROW_WORDS],
    pub number: usize,
}

impl HeldRows {
    // The rows of all live gates for the row of patterns with this number, in order; no live gate or output reads a dead gate. A gate that does not
    // tell the row held so far from this one keeps its own. It takes no `Walk`, as `live_words` takes none. Not inlined: as a part of its caller, as in a
    // program with one sink, it was 1.05 times as slow, and the words had a second place on the stack.
    #[inline(never)]
    pub fn work(
        &mut self,
        area: &[u32],
        next: &[usize; area::MOST_SOURCES],
        unseen: &[usize; area::MOST_SOURCES],
        words: &[u64; area::MOST_SOURCES],
        number: usize,
    )
        requires planned { Planned area.now next.now unseen.now }
        requires values_from { ValuesFrom area.now words.now (row_length * number) × (number < row_count) }
        requires rows_kept { RowsFor area.now unseen.now self.old.rows self.old.number }
        ensures block { Block area.now self.new.rows (row_length * number) (layout.gates area.now) }
        ensures rows_kept_2 { RowsFor area.now unseen.now self.new.rows self.new.number }
        ensures number_after { self.new.number ≡ number }
    {
        let inputs = area::inputs(area);
        let count = area::gates(area);
        let shift = rows::LANES * number % signals::LANES;
        let held = self.number;
        // Linked like the gates of `live_words`.
        let mut gate = next[0];
        while gate < count {
            if !same_row(unseen, inputs + gate, held, number) {
                folds::work_row(&mut self.rows, words, area, gate, shift);
            }
            gate = next[gate + 1];
        }
        self.number = number;
    }
}

// What takes the reliabilities under the patterns of an area, row after row.
pub trait RowSink {
    // the patterns below so many are done, on an area of these words
    ghost Done: { Self → List ℕ → ℕ → Type 0 };

    // what no row changes
    ghost fixed: { Self → List ℕ };

    // Whether so many patterns from `start` on are done without their reliabilities.
    fn skips(&self, area: &[u32], start: usize, many: usize) -> bool
        requires { Workable area.now × Done self.now area.now start × (start + many ≤ layout.most_patterns) }
        ensures done { result ≡ true → Done self.now area.now (start + many) }
        ensures inside { result ≡ false → start < 2 ^ layout.inputs area.now };

    // The row whose first pattern is `start`.
    fn take(&mut self, area: &[u32], start: usize, row: [u32; rows::LANES])
        requires done { Workable area.now × Done self.old area.now start }
        requires inside { (start < 2 ^ layout.inputs area.now) × (start + row_length ≤ layout.most_patterns) }
        requires right { RowRight area.now start row × RowFits row }
        ensures done_2 { Done self.new area.now (start + row_length) }
        ensures fixed_2 { fixed self.new ≡ fixed self.old };
}

impl HeldRows {
    // The row with this number, worked out unless the sink skips it.
    #[inline(always)]
    fn walk_row<S: RowSink>(
        &mut self,
        sink: &mut S,
        walk: &Walk,
        words: &[u64; area::MOST_SOURCES],
        number: usize,
    )
        requires planned { Planned walk.now.area.now walk.now.next.now walk.now.unseen.now }
        requires values_from { ValuesFrom walk.now.area.now words.now (row_length * number) × (number < row_count) }
        requires rows_kept { RowsFor walk.now.area.now walk.now.unseen.now self.old.rows self.old.number }
        requires done { S.Done sink.old walk.now.area.now (row_length * number) }
        ensures done_2 { S.Done sink.new walk.now.area.now (row_length * (number + 1)) × (S.fixed sink.new ≡ S.fixed sink.old) }
        ensures rows_kept_2 { RowsFor walk.now.area.now walk.now.unseen.now self.new.rows self.new.number }
    {
        let start = rows::LANES * number;
        if sink.skips(walk.area, start, rows::LANES) {
            return;
        }
        self.work(walk.area, walk.next, walk.unseen, words, number);
        sink.take(walk.area, start, reliability_row(&self.rows, walk.area));
    }

    // Both rows of a block, from this one on, from the same words.
    fn walk_rows<S: RowSink>(
        &mut self,
        sink: &mut S,
        walk: &Walk,
        words: &[u64; area::MOST_SOURCES],
        first: usize,
    )
        requires planned { Planned walk.now.area.now walk.now.next.now walk.now.unseen.now × (first + 2 ≤ row_count) }
        requires values_from { (n : ℕ) → first ≤ n → n < first + 2 → ValuesFrom walk.now.area.now words.now (row_length * n) }
        requires rows_kept { RowsFor walk.now.area.now walk.now.unseen.now self.old.rows self.old.number }
        requires done { S.Done sink.old walk.now.area.now (row_length * first) }
        ensures done_2 { S.Done sink.new walk.now.area.now (row_length * (first + 2)) × (S.fixed sink.new ≡ S.fixed sink.old) }
        ensures rows_kept_2 { RowsFor walk.now.area.now walk.now.unseen.now self.new.rows self.new.number }
    {
        for number in first..first + 2 {
            self.walk_row(sink, walk, words, number);
        }
    }

    // The 64 patterns of a block: right values for all of them in one word, failures in two rows. The words are lent where they are made, since an array
    // that a `let` takes from a call has two places on the stack.
    fn walk_block<S: RowSink>(&mut self, sink: &mut S, walk: &Walk, block: usize)
        requires planned { Planned walk.now.area.now walk.now.next.now walk.now.unseen.now × (2 * block < row_count) }
        requires rows_kept { RowsFor walk.now.area.now walk.now.unseen.now self.old.rows self.old.number }
        requires done { S.Done sink.old walk.now.area.now (lane_count * block) }
        ensures done_2 { S.Done sink.new walk.now.area.now (lane_count * (block + 1)) × (S.fixed sink.new ≡ S.fixed sink.old) }
        ensures rows_kept_2 { RowsFor walk.now.area.now walk.now.unseen.now self.new.rows self.new.number }
    {
        let first = signals::LANES * block;
        if sink.skips(walk.area, first, signals::LANES) {
            return;
        }
        let patterns = block_patterns(area::inputs(walk.area), first);
        self.walk_rows(
            sink,
            walk,
            &live_words(walk.area, walk.next, &patterns),
            2 * block,
        );
    }
}

// Not inlined: its rows are not on the stack while `plan::next_live` works. No `Walk` that it makes stands in memory, or both arrays would be copied there.
#[inline(never)]
fn walk_blocks<S: RowSink>(
    sink: &mut S,
    area: &[u32],
    next: &[usize; area::MOST_SOURCES],
    unseen: &[usize; area::MOST_SOURCES],
)
    requires planned { Planned area.now next.now unseen.now }
    requires done { S.Done sink.old area.now 0 }
    ensures { S.Done sink.new area.now (walked_to area.now) × (S.fixed sink.new ≡ S.fixed sink.old) }
{
    let walk = Walk { area, next, unseen };
    let blocks = pattern_count(area::inputs(area)).div_ceil(signals::LANES);
    let mut held = HeldRows {
        rows: [0u32; rows::ROW_WORDS],
        number: NO_ROW,
    };
    for block in 0..blocks {
        held.walk_block(sink, &walk, block);
    }
}

// The walk over all patterns: the sink takes or skips their rows in order, to the end of the last block. The area is only read: its words of figures may
// be those of any pattern. Both arrays are lent where they are made, each in one place on the stack.
pub fn walk_patterns<S: RowSink>(sink: &mut S, area: &[u32])
    requires { Workable area.now × S.Done sink.old area.now 0 }
    ensures { S.Done sink.new area.now (walked_to area.now) × (S.fixed sink.new ≡ S.fixed sink.old) }
{
    walk_blocks(sink, area, &plan::next_live(area), &plan::unseen_bits(area));
}

// The sum over the patterns of their reliabilities, each times its weight.
#[derive(Drop)]
struct Weighted<'a> {
    weights: &'a [u32],
    sum: u64,
}

// A row of reliabilities, each times the weight of its pattern, added up; the weights may end within the row.
fn row_sum(row: [u32; rows::LANES], weights: &[u32]) -> u64
    requires row_fits { RowFits row }
    requires by_index { (q : ℕ) → q < length weights.now → get_or weights.now q 0 ≤ layout.largest_weight }
    ensures { result ≡ sum_below row_length (λ l. get_or weights.now l 0 * get_or row l 0) }
{
    let mut sum = 0;
    for (reliability, weight) in row.iter().zip(weights) {
        sum += u64::from(*weight) * u64::from(*reliability);
    }
    sum
}

impl RowSink for Weighted<'_> {
    ghost Done = { λ s ws q. WeightsFit (layout.inputs ws) s.weights.now × (s.sum ≡ weighted_to ws s.weights.now q) };

    ghost fixed = { λ s. s.weights.now };

    // Patterns past the last, and those without a weight.
    fn skips(&self, area: &[u32], start: usize, many: usize) -> bool {
        let last = self.weights.len();
        last <= start || all_zero(&self.weights[start..last.min(start + many)])
    }

    fn take(&mut self, area: &[u32], start: usize, row: [u32; rows::LANES]) {
        self.sum += row_sum(row, &self.weights[start..]);
    }
}

// The weighted sum over all patterns.
fn weighted_sum(area: &[u32], weights: &[u32]) -> u64
    requires workable { Workable area.now }
    requires weights_fit { WeightsFit (layout.inputs area.now) weights.now }
    ensures { result ≡ weighted_to area.now weights.now (length weights.now) }
{
    let mut sink = Weighted { weights, sum: 0 };
    walk_patterns(&mut sink, area);
    sink.sum
}

// The weighted average of the reliability over all patterns; the area's figures are worked out afresh for its own pattern.
pub fn average(area: &mut [u32], weights: &[u32]) -> u32
    requires workable { Workable area.old }
    requires weights_value { weights_judgement (layout.inputs area.old) weights.now ≡ Fine }
    ensures value { result ≡ average_of area.old weights.now }
    ensures area_after { area.new ≡ work_all area.old }
{
    let sum = weighted_sum(area, weights);
    work::work_all(area);
    rounding::rounded(sum, total_weight(weights)) as u32
}
