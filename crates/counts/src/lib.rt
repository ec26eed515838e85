// In how many listed patterns a flip of each gate alone is seen at an output, 64 patterns in one word: by the flip itself, and by masks.
#![tactic(auto)]

ghost use Rattle.std.specs.Prelude.{◌≡◌, cond, [], ◌++◌, ℕ, ◌+◌, ◌<◌, ◌≤◌, max, eqb, ltb, length, get_or, set, drop};
ghost use Rattle.std.specs.Int.Count.{ones};
ghost use Rattle.netlist.specs.Seen.{differ, seen_counts};
ghost use Rattle.netlist.specs.declared.Method.TheVariants.{Flip, Mask};
ghost use Rattle.area.specs.Layout as layout;
ghost use Rattle.area.specs.Rules.{NetSound};
ghost use Rattle.area.specs.Net.{net_of};
ghost use Rattle.signals.specs.Signals.{lane_count, InEachLane, right_in, WordsHold};
ghost use Rattle.counts.specs.Counts.{span_at, Entered, Reads, Followable, right_answer, changed_answer, Unchanged, Worked};
ghost use Rattle.counts.specs.Counts.{Flipped, Following, some_changed, SeenIn, OutputMasks, MaskPassed, CountsReady, CountsAdded};

use netlist::Method;

// The lanes that have a listed pattern.
fn listed_lanes(many: usize) -> u64
    requires { many ≤ lane_count }
    ensures { InEachLane result (λ l. ltb l many) }
{
    if many == signals::LANES {
        return signals::ALL;
    }
    (1 << many) - 1
}

// The ones of a word, one for each lane in which a flip is seen, are added to a gate's count.
fn add_ones(counts: &mut [u32], gate: usize, word: u64)
    requires { (gate < length counts.old) × (get_or counts.old gate 0 ≤ layout.most_listed) }
    ensures counts_after { counts.new ≡ set counts.old gate (get_or counts.old gate 0 + ones word) }
    ensures word_bound { word < 18_446_744_073_709_551_616 }
{
    counts[gate] += u64::count_ones(word);
}

// Which gate to look at: the next one, or, where the window ends before it, none below the first reader of the gate that has just changed.
fn next_gate(next: usize, stop: usize, reader: usize) -> usize
    ensures { result ≡ cond (eqb next stop) (max next reader) next }
{
    if next == stop { next.max(reader) } else { next }
}

// Of the gates that read a source the lowest, and one more than the highest. Where there is none, no gate reaches `first`.
#[derive(Clone, Copy)]
struct Span {
    first: usize,
    end: usize,
}

// A gate is entered as a reader of a source. Gates come in order.
fn enter_read(spans: &mut [Span; area::MOST_SOURCES], source: usize, gate: usize)
    requires source_lt_most_sources { (source < layout.most_sources) × (gate < layout.most_gates) }
    requires spans_len { length spans.old ≡ layout.most_sources }
    requires by_index { (t : ℕ) → (span_at spans.old t).end ≤ gate + 1 }
    ensures { Entered spans.old source gate spans.new }
{
    let span = spans[source];
    spans[source] = Span {
        first: span.first.min(gate),
        end: gate + 1,
    };
}

fn enter_gate(spans: &mut [Span; area::MOST_SOURCES], area: &[u32], gate: usize)
    requires net_sound { NetSound area.now × (gate < layout.gates area.now) }
    requires reads { Reads area.now gate spans.old }
    ensures { Reads area.now (gate + 1) spans.new }
{
    for i in 0..area::pin_count(area, gate) {
        enter_read(spans, area::pin(area, gate, i), gate);
    }
}

// The readers of all sources.
fn enter_gates(spans: &mut [Span; area::MOST_SOURCES], area: &[u32])
    requires net_sound { NetSound area.now }
    requires reads { Reads area.now 0 spans.old }
    ensures { Reads area.now (layout.gates area.now) spans.new }
{
    for gate in 0..area::gates(area) {
        enter_gate(spans, area, gate);
    }
}

// A gate's flip that is being followed: the gates from `gate` on and before `stop` are still to be looked at.
#[derive(Clone, Copy)]
struct Window {
    flipped: usize,
    gate: usize,
    stop: usize,
}

// What flips are followed on: the right words of an area's sources, and who reads each source.
#[derive(Clone, Copy)]
struct Circuit<'a> {
    area: &'a [u32],
    words: &'a [u64; area::MOST_SOURCES],
    spans: &'a [Span; area::MOST_SOURCES],
}

impl Circuit<'_> {
    // The lanes in which a gate's answer changes, where its pins' sources change in these lanes. Most gates read no source that does.
    fn difference(&self, changed: &[u64; area::MOST_SOURCES], gate: usize) -> u64
        requires { Followable self.now.area.now self.now.words.now self.now.spans.now × (gate < layout.gates self.now.area.now) }
        ensures { InEachLane result (λ l. differ (changed_answer self.now.area.now self.now.words.now changed.now gate l)
            (right_answer self.now.area.now self.now.words.now gate l)) }
    {
        let by = signals::pin_words(changed, self.area, gate);
        if by[0] | by[1] | by[2] | by[3] == 0 {
            return 0;
        }
        let pins = signals::pin_words(self.words, self.area, gate);
        let wrong = [
            pins[0] ^ by[0],
            pins[1] ^ by[1],
            pins[2] ^ by[2],
            pins[3] ^ by[3],
        ];
        signals::gate_answer(self.area, gate, wrong)
            ^ signals::gate_word(self.words, self.area, gate)
    }

    // Looks at the first gate of the window. Where no gate before it has a later reader, the next one to look at is its own first reader.
    fn follow_gate(&self, changed: &mut [u64; area::MOST_SOURCES], window: Window) -> Window
        requires followable { Followable self.now.area.now self.now.words.now self.now.spans.now }
        requires gate_lt_stop { window.gate < window.stop }
        requires following { Following self.now.area.now self.now.words.now window.flipped window.gate window.stop changed.old }
        ensures flipped_value { (result.flipped ≡ window.flipped) × (window.gate < result.gate) }
        ensures following_2 { Following self.now.area.now self.now.words.now result.flipped result.gate result.stop changed.new }
        ensures flipped_unchanged { get_or changed.new (layout.inputs self.now.area.now + window.flipped) 0
            ≡ get_or changed.old (layout.inputs self.now.area.now + window.flipped) 0 }
    {
        let Window {
            flipped,
            gate,
            stop,
        } = window;
        let word = self.difference(changed, gate);
        if word == 0 {
            return Window {
                flipped,
                gate: gate + 1,
                stop,
            };
        }
        let source = area::inputs(self.area) + gate;
        changed[source] = word;
        let span = self.spans[source];
        Window {
            flipped,
            gate: next_gate(gate + 1, stop, span.first),
            stop: stop.max(span.end),
        }
    }

    // Follows a flip through all gates of its window, and answers the gate before which the changes stop.
    fn follow(&self, changed: &mut [u64; area::MOST_SOURCES], window: Window) -> usize
        requires followable { Followable self.now.area.now self.now.words.now self.now.spans.now }
        requires following { Following self.now.area.now self.now.words.now window.flipped window.gate window.stop changed.old }
        ensures flipped { Flipped self.now.area.now self.now.words.now window.flipped
            (get_or changed.old (layout.inputs self.now.area.now + window.flipped) 0) changed.new }
        ensures upper_bound { (window.flipped < result) × (result ≤ layout.gates self.now.area.now)
            × ((s : ℕ) → layout.inputs self.now.area.now + result ≤ s → get_or changed.new s 0 ≡ 0) }
    {
        let mut window = window;
        // No range has the gates of a window, which grows and jumps while it is followed.
        while window.gate < window.stop {
            window = self.follow_gate(changed, window);
        }
        window.stop
    }

    // The lanes in which some output changes when a gate flips in the lanes `by`.
    fn flip_lanes(&self, changed: &mut [u64; area::MOST_SOURCES], gate: usize, by: u64) -> u64
        requires followable { Followable self.now.area.now self.now.words.now self.now.spans.now }
        requires gate_bound { (gate < layout.gates self.now.area.now) × Unchanged changed.old }
        ensures seen_in { SeenIn self.now.area.now self.now.words.now gate by result }
        ensures unchanged { Unchanged changed.new }
    {
        let inputs = area::inputs(self.area);
        let source = inputs + gate;
        changed[source] = by;
        let span = self.spans[source];
        let window = Window {
            flipped: gate,
            gate: (gate + 1).max(span.first),
            stop: (gate + 1).max(span.end),
        };
        let stop = self.follow(changed, window);
        let seen = output_lanes(self.area, changed);
        changed[source..inputs + stop].fill(0);
        seen
    }
}

// The lanes in which some output changes.
fn output_lanes(area: &[u32], changed: &[u64; area::MOST_SOURCES]) -> u64
    requires { NetSound area.now }
    ensures { InEachLane result (some_changed changed.now (layout.output_words area.now)) }
{
    let mut lanes = 0;
    for k in 0..area::outputs(area) {
        lanes |= signals::word_of(changed, area::output(area, k));
    }
    lanes
}

// The masks that the outputs give: their sources have the lanes `by`.
fn output_masks(area: &[u32], by: u64) -> [u64; area::MOST_SOURCES]
    requires { NetSound area.now }
    ensures { OutputMasks (layout.output_words area.now) by result }
{
    let mut masks = [0u64; area::MOST_SOURCES];
    for k in 0..area::outputs(area) {
        let source = area::index(area::output(area, k));
        masks[source] = by;
    }
    masks
}

// A gate's mask is passed back to the gates that its pins read, in the lanes in which a pin is sensitive. No input is counted, so none gets a mask.
fn pass_mask(
    masks: &mut [u64; area::MOST_SOURCES],
    area: &[u32],
    words: &[u64; area::MOST_SOURCES],
    gate: usize,
    mask: u64,
)
    requires net_sound { NetSound area.now × Worked area.now words.now × (gate < layout.gates area.now) }
    requires masks_len { (length masks.old ≡ layout.most_sources) × (mask ≡ get_or masks.old (layout.inputs area.now + gate) 0) }
    ensures { MaskPassed area.now words.now gate (layout.pin_count area.now gate)
        masks.old masks.new }
{
    let inputs = area::inputs(area);
    let table = area::table(area, gate);
    let count = area::pin_count(area, gate);
    let pins = signals::pin_words(words, area, gate);
    let right = signals::gate_word(words, area, gate);
    for i in 0..count {
        let source = area::pin(area, gate, i);
        if inputs <= source {
            masks[source] |= signals::sensitive_word(table, count, pins, right, i) & mask;
        }
    }
}

// A gate's mask is counted and passed back; most gates that are dead, or not seen in any lane, have none.
fn count_mask(
    counts: &mut [u32],
    masks: &mut [u64; area::MOST_SOURCES],
    area: &[u32],
    words: &[u64; area::MOST_SOURCES],
    gate: usize,
)
    requires net_sound { NetSound area.now × Worked area.now words.now × (gate < layout.gates area.now) }
    requires gate_in_bounds { (gate < length counts.old) × (get_or counts.old gate 0 ≤ layout.most_listed) × (length masks.old ≡ layout.most_sources) }
    ensures counts_after { counts.new ≡ set counts.old gate
        (get_or counts.old gate 0 + ones (get_or masks.old (layout.inputs area.now + gate) 0)) }
    ensures gate_bound { get_or masks.old (layout.inputs area.now + gate) 0 < 18_446_744_073_709_551_616 }
    ensures mask_passed { MaskPassed area.now words.now gate (layout.pin_count area.now gate)
        masks.old masks.new }
{
    let mask = signals::gate_word(masks, area, gate);
    if mask == 0 {
        return;
    }
    add_ones(counts, gate, mask);
    pass_mask(masks, area, words, gate, mask);
}

// Each gate flips by itself. Not inlined, so that the arrays of 24 KB here are not on the stack while the right words are worked out.
#[inline(never)]
fn flip_gates(counts: &mut [u32], area: &[u32], words: &[u64; area::MOST_SOURCES], patterns: &[u32])
    requires net_sound { NetSound area.now × (length patterns.now ≤ lane_count) }
    requires words_hold { WordsHold (layout.inputs area.now + layout.gates area.now)
        (right_in (net_of area.now [] []) patterns.now) words.now }
    requires counts_ready { CountsReady (layout.gates area.now) counts.old }
    ensures { CountsAdded Flip (net_of area.now [] []) patterns.now counts.old counts.new }
{
    let unread = Span {
        first: area::MOST_GATES,
        end: 0,
    };
    let mut spans = [unread; area::MOST_SOURCES];
    enter_gates(&mut spans, area);
    let circuit = Circuit {
        area,
        words,
        spans: &spans,
    };
    let by = listed_lanes(patterns.len());
    let mut changed = [0u64; area::MOST_SOURCES];
    for gate in 0..area::gates(area) {
        let seen = circuit.flip_lanes(&mut changed, gate, by);
        add_ones(counts, gate, seen);
    }
}

// From the last gate to the first: a gate's mask is whole once all later gates have passed theirs. Not inlined for the same reason.
#[inline(never)]
fn mask_gates(counts: &mut [u32], area: &[u32], words: &[u64; area::MOST_SOURCES], patterns: &[u32])
    requires net_sound { NetSound area.now × (length patterns.now ≤ lane_count) }
    requires words_hold { WordsHold (layout.inputs area.now + layout.gates area.now)
        (right_in (net_of area.now [] []) patterns.now) words.now }
    requires counts_ready { CountsReady (layout.gates area.now) counts.old }
    ensures { CountsAdded Mask (net_of area.now [] []) patterns.now counts.old counts.new }
{
    let mut masks = output_masks(area, listed_lanes(patterns.len()));
    for gate in (0..area::gates(area)).rev() {
        count_mask(counts, &mut masks, area, words, gate);
    }
}

fn count_worked(
    counts: &mut [u32],
    area: &[u32],
    words: &[u64; area::MOST_SOURCES],
    patterns: &[u32],
    method: Method,
)
    requires net_sound { NetSound area.now × (length patterns.now ≤ lane_count) }
    requires words_hold { WordsHold (layout.inputs area.now + layout.gates area.now)
        (right_in (net_of area.now [] []) patterns.now) words.now }
    requires counts_ready { CountsReady (layout.gates area.now) counts.old }
    ensures { CountsAdded method (net_of area.now [] []) patterns.now counts.old counts.new }
{
    // The method is a value that the caller of the bench gives, so it is matched and no function is passed.
    match method {
        Method::Flip => flip_gates(counts, area, words, patterns),
        Method::Mask => mask_gates(counts, area, words, patterns),
    }
}

// What is counted of a block of at most 64 patterns. Counts, area and patterns are what `count` is lent, each by itself. The right words are lent where
// they are made, in one place on the stack.
fn count_block(counts: &mut [u32], area: &[u32], patterns: &[u32], method: Method)
    requires net_sound { NetSound area.now × (length patterns.now ≤ lane_count) }
    requires counts_ready { CountsReady (layout.gates area.now) counts.old }
    ensures { CountsAdded method (net_of area.now [] []) patterns.now counts.old counts.new }
{
    count_worked(
        counts,
        area,
        &signals::right_words(area, patterns),
        patterns,
        method,
    );
}

// In how many of the listed patterns each gate's flip is seen: one count a gate, block by block of 64 patterns. Counts past the gates stay.
pub fn count(area: &[u32], patterns: &[u32], counts: &mut [u32], method: Method)
    requires { NetSound area.now × (length patterns.now ≤ layout.most_listed) × (layout.gates area.now ≤ length counts.old) }
    ensures { counts.new ≡ seen_counts method (net_of area.now [] []) patterns.now
        ++ drop (layout.gates area.now) counts.old }
{
    counts[..area::gates(area)].fill(0);
    for block in patterns.chunks(signals::LANES) {
        count_block(counts, area, block, method);
    }
}
