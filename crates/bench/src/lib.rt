// The calls of the bench. Each judges its input first: a refused call changes no word.
#![tactic(auto)]

ghost use Rattle.std.specs.Prelude.{◌≡◌, ℕ, ◌+◌, ◌-◌, ◌/◌, ◌%◌, ◌^◌, ◌≤◌, ◌<◌, List, [], ◌++◌, length, get_or, take, drop};
ghost use Rattle.refusal.specs.Judgement.{Fine, otherwise, answer, unless_refused};
ghost use Rattle.netlist.specs.Live.{readers, live_gates};
ghost use Rattle.area.specs.Net.{net_of};
ghost use Rattle.area.specs.Sum.{flip_sum};
ghost use Rattle.area.specs.Layout as layout;
ghost use Rattle.area.specs.Layout.{head_words, gates, outputs, needed, pattern, reliability_word, figure};
ghost use Rattle.area.specs.Rules.{words_judgement, area_judgement, NetSound, Workable};
ghost use Rattle.calls.specs.Judgements as judged;
ghost use Rattle.calls.specs.Judgements.{open_image, toggle_input, set_flip, read_netlist, read_gate, take_average, count_seen, write_image, judgement};
ghost use Rattle.calls.specs.Calls.{open_live, average_of, left, counts_left};
ghost use Rattle.written.specs.Image.{area_image_length};
ghost use Rattle.written.specs.Call.{image_left};
ghost use Rattle.bench.specs.Loaded.{room_of, loaded_judgement, loaded_words};
ghost use Rattle.bench.specs.Answers.{opened, gate_read, NetlistAnswer};

use netlist::Method;
use refusal::{Cause, Refusal};

// What is read of a netlist: its pattern, and its reliability in units and as an f64.
#[derive(Clone, Copy)]
pub struct NetlistFigures {
    pub pattern: u32,
    pub units: u32,
    pub reliability: f64,
}

// What is read of a gate: its right value, and its failure in units.
#[derive(Clone, Copy)]
pub struct GateFigures {
    pub right: u32,
    pub failure: u32,
}

// Refusal 13 of a loaded netlist that has passed 9; if it does not apply its words go into the area, every figure is worked out, and the
// raw flip sum is stored.
fn open_fitting(area: &mut [u32], words: &[u32], live: u32, sum: u64) -> Result<u32, Refusal>
    requires net_sound { NetSound words.now }
    requires by_index { (rest : List ℕ) → Workable (take (needed (gates words.now) (outputs words.now)) words.now ++ rest) }
    requires sum_value { sum ≡ flip_sum words.now }
    ensures value { result ≡ opened (room_of words.now (length area.old)) live }
    ensures area_after { area.new ≡ unless_refused (room_of words.now (length area.old))
        (loaded_words words.now area.old) area.old }
{
    let needed = area::needed(area::gates(words), area::outputs(words));
    if area.len() < needed {
        return Err(Refusal {
            cause: Cause::AreaTooShort,
            place: 0,
        });
    }
    area::store(area, 0, &words[..needed]);
    work::work_all(area);
    area::store_sum(area, sum);
    Ok(live)
}

// Refusals 9 and 13 of a loaded image, and the work.
fn open_loaded(area: &mut [u32], words: &[u32]) -> Result<u32, Refusal>
    requires net_sound { NetSound words.now }
    requires by_index { (rest : List ℕ) → Workable (take (needed (gates words.now) (outputs words.now)) words.now ++ rest) }
    ensures value { result ≡ opened (loaded_judgement words.now (length area.old)) (live_gates (net_of words.now [] [])) }
    ensures area_after { area.new ≡ unless_refused (loaded_judgement words.now (length area.old))
        (loaded_words words.now area.old) area.old }
{
    let inputs = area::inputs(words);
    let gates = area::gates(words);
    let counted = live::count_live(words);
    let readers = counted.readers;
    live::judge_shared(&readers, inputs, gates)?;
    let live = live::live_gates(&readers, inputs, gates);
    open_fitting(area, words, live, counted.sum)
}

// Opens an image in the area: pattern 0. It answers the number of live gates.
pub fn open(area: &mut [u32], image: &[u8]) -> Result<u32, Refusal>
    ensures value { result ≡ opened (judgement area.old (open_image image.now)) (open_live image.now) }
    ensures area_after { area.new ≡ left area.old (open_image image.now) }
{
    let mut words = [0u32; area::MOST_WORDS];
    image::load(image, &mut words)?;
    open_loaded(area, &words)
}

// Refusal 10: the number named, of so many.
fn judge_named(number: u32, count: usize) -> Result<(), Refusal>
    ensures { result ≡ judged.named number count }
{
    if area::index(number) < count {
        Ok(())
    } else {
        Err(Refusal {
            cause: Cause::NotThere,
            place: number,
        })
    }
}

// The area's own refusal, then refusal 10: the number named against the count that a word of the head holds.
fn judge_counted(area: &[u32], word: usize, named: u32) -> Result<(), Refusal>
    requires { word < head_words }
    ensures { result ≡ otherwise (area_judgement area.now) (judged.named named (get_or area.now word 0)) }
{
    rules::judge(area)?;
    judge_named(named, area::index(area[word]))
}

fn judge_toggle(area: &[u32], input: u32) -> Result<(), Refusal>
    ensures { result ≡ judgement area.now (toggle_input input) }
{
    judge_counted(area, area::INPUTS, input)
}

fn judge_gate(area: &[u32], gate: u32) -> Result<(), Refusal>
    ensures { result ≡ judgement area.now (read_gate gate) }
{
    judge_counted(area, area::GATES, gate)
}

fn judge_average(area: &[u32], weights: &[u32]) -> Result<(), Refusal>
    ensures { result ≡ judgement area.now (take_average weights.now) }
{
    rules::judge(area)?;
    average::judge_weights(area::inputs(area), weights)
}

// The largest pattern of so many inputs.
fn last_pattern(inputs: usize) -> u32
    requires { inputs ≤ layout.most_inputs }
    ensures { result ≡ 2 ^ inputs - 1 }
{
    (1 << inputs) - 1
}

// Refusals 15, 16 and 17 in their order: how many patterns, the lowest that is too large, fewer counts than gates.
fn judge_listed(inputs: usize, gates: usize, patterns: &[u32], slots: usize) -> Result<(), Refusal>
    requires { inputs ≤ layout.most_inputs }
    ensures { result ≡ judged.counts_judgement inputs gates patterns.now slots }
{
    if patterns.len() < 1 || area::MOST_LISTED < patterns.len() {
        return Err(Refusal {
            cause: Cause::ListLength,
            place: 0,
        });
    }
    refusal::judge_each(patterns, last_pattern(inputs), Cause::ListedPattern)?;
    if slots < gates {
        return Err(Refusal {
            cause: Cause::CountSlice,
            place: 0,
        });
    }
    Ok(())
}

// The area's own refusal, then the list's and the slice's: the same for either method.
fn judge_counts(area: &[u32], patterns: &[u32], slots: usize) -> Result<(), Refusal>
    ensures { result ≡ otherwise (area_judgement area.now)
        (judged.counts_judgement (layout.inputs area.now) (gates area.now) patterns.now slots) }
{
    rules::judge(area)?;
    judge_listed(area::inputs(area), area::gates(area), patterns, slots)
}

// Inverts one input; the gates behind it and the reliability follow.
pub fn toggle_input(area: &mut [u32], input: u32) -> Result<(), Refusal>
    ensures value { result ≡ judgement area.old (toggle_input input) }
    ensures area_after { area.new ≡ left area.old (toggle_input input) }
{
    judge_toggle(area, input)?;
    work::toggle(area, area::index(input));
    Ok(())
}

// The last part of refusal 14 and refusal 10, of an area that has passed the others.
fn judge_gate_summed(area: &[u32], gate: u32, sum: u64) -> Result<(), Refusal>
    requires { (words_judgement area.now ≡ Fine) × (sum ≡ flip_sum area.now) }
    ensures { result ≡ judgement area.now (read_gate gate) }
{
    rules::judge_sum(area, sum)?;
    judge_named(gate, area::gates(area))
}

// The gate exists, and has so many live readers: refusals 11 and 22, else the flip is set, and with it the raw flip sum. Area, gate, kind and field are what
// the call in C gives, here and below.
fn set_known_flip(
    area: &mut [u32],
    gate: u32,
    kind: u8,
    field: [u8; 8],
    live: u32,
    sum: u64,
) -> Result<(), Refusal>
    requires gate_value { judgement area.old (read_gate gate) ≡ Fine }
    requires live_value { (live ≡ readers (net_of area.old [] []) (layout.inputs area.old + gate)) × (sum ≡ flip_sum area.old) }
    ensures value { result ≡ judged.flip_judgement gate kind field }
    ensures area_after { area.new ≡ left area.old (set_flip gate kind field) }
{
    let units = image::units_of_flip(kind, field, Cause::CallFlip, gate)?;
    let old = area::flip(area, area::index(gate));
    work::set_units(area, area::index(gate), units);
    area::store_sum(area, live::changed_sum(sum, live, old, units));
    Ok(())
}

// Sets a flip in an area that has passed all of 13 and 14 but for the sum.
fn set_counted(
    area: &mut [u32],
    gate: u32,
    kind: u8,
    field: [u8; 8],
    counted: &[u32; area::MOST_SOURCES],
    sum: u64,
) -> Result<(), Refusal>
    requires area_value { (words_judgement area.old ≡ Fine) × (sum ≡ flip_sum area.old) }
    requires by_index { (s : ℕ) → get_or counted.now s 0 ≡ readers (net_of area.old [] []) s }
    ensures value { result ≡ judgement area.old (set_flip gate kind field) }
    ensures area_after { area.new ≡ left area.old (set_flip gate kind field) }
{
    judge_gate_summed(area, gate, sum)?;
    let live = counted[area::inputs(area) + area::index(gate)];
    set_known_flip(area, gate, kind, field, live, sum)
}

// Sets one gate's flip; this gate, those behind it, the reliability and the raw flip sum follow. Live readers are counted once, for the
// judgement and for the sum.
pub fn set_flip(area: &mut [u32], gate: u32, kind: u8, field: [u8; 8]) -> Result<(), Refusal>
    ensures value { result ≡ judgement area.old (set_flip gate kind field) }
    ensures area_after { area.new ≡ left area.old (set_flip gate kind field) }
{
    rules::judge_words(area)?;
    let counted = live::count_live(area);
    let readers = counted.readers;
    set_counted(area, gate, kind, field, &readers, counted.sum)
}

// Reads the pattern and the reliability, in units and as an f64. It writes nothing.
pub fn read_netlist(area: &[u32]) -> Result<NetlistFigures, Refusal>
    ensures { NetlistAnswer (judgement area.now read_netlist) (pattern area.now) (reliability_word area.now) result }
{
    rules::judge(area)?;
    let units = area[area::RELIABILITY];
    Ok(NetlistFigures {
        pattern: area[area::PATTERN],
        units,
        reliability: chance::units_as_f64(units),
    })
}

// Reads one gate's right value and failure. It writes nothing.
pub fn read_gate(area: &[u32], gate: u32) -> Result<GateFigures, Refusal>
    ensures { result ≡ gate_read (judgement area.now (read_gate gate)) (figure area.now gate % 2)
        (figure area.now gate / 2) }
{
    judge_gate(area, gate)?;
    let word = area::figure(area, area::index(gate));
    Ok(GateFigures {
        right: word % 2,
        failure: word / 2,
    })
}

// The weighted average of the reliability over all patterns, weight q for pattern q. It leaves the figures worked out afresh.
pub fn average(area: &mut [u32], weights: &[u32]) -> Result<u32, Refusal>
    ensures value { result ≡ answer (judgement area.old (take_average weights.now))
        (average_of area.old weights.now) }
    ensures area_after { area.new ≡ left area.old (take_average weights.now) }
{
    judge_average(area, weights)?;
    Ok(average::average(area, weights))
}

// Judges, then counts by the method. The area is only read.
fn count_seen(
    area: &[u32],
    patterns: &[u32],
    counts: &mut [u32],
    method: Method,
) -> Result<(), Refusal>
    ensures value { result ≡ judgement area.now (count_seen method patterns.now (length counts.old)) }
    ensures counts_after { counts.new ≡ counts_left area.now method patterns.now counts.old }
{
    judge_counts(area, patterns, counts.len())?;
    counts::count(area, patterns, counts, method);
    Ok(())
}

// Counts, gate by gate, the listed patterns in which its flip alone is seen at an output, by flipping it. Entries past one a gate stay as they were.
pub fn counts_by_flip(area: &[u32], patterns: &[u32], counts: &mut [u32]) -> Result<(), Refusal>
    ensures value { result ≡ judgement area.now (count_seen Method.Flip patterns.now (length counts.old)) }
    ensures counts_after { counts.new ≡ counts_left area.now Method.Flip patterns.now counts.old }
{
    count_seen(area, patterns, counts, Method::Flip)
}

// The counts by masks that are passed back from the outputs: on every area that was opened they are those of the flips.
pub fn counts_by_mask(area: &[u32], patterns: &[u32], counts: &mut [u32]) -> Result<(), Refusal>
    ensures value { result ≡ judgement area.now (count_seen Method.Mask patterns.now (length counts.old)) }
    ensures counts_after { counts.new ≡ counts_left area.now Method.Mask patterns.now counts.old }
{
    count_seen(area, patterns, counts, Method::Mask)
}

// Writes the image of the area over the first bytes of a slice, bytes past it as they were, and answers its length. The area is only read.
pub fn write_image(area: &[u32], image: &mut [u8]) -> Result<u32, Refusal>
    ensures value { result ≡ answer (judgement area.now (write_image (length image.old))) (area_image_length area.now) }
    ensures image_after { image.new ≡ image_left area.now image.old }
{
    written::judge_write(area, image.len())?;
    written::write_image(area, image);
    Ok(written::image_length(area) as u32)
}
