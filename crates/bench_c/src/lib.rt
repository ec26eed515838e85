// The calls of the bench for C. Each answers 0 where the work was done, else number × 2^32 + place, and then leaves what its pointers name as it was;
// of two images, the one that is refused stands above the number, from bit 40 on.
#![tactic(auto)]

ghost use Rattle.std.specs.Prelude.{◌≡◌, ℕ, length, ◌/◌, ◌%◌};
ghost use Rattle.refusal.specs.Judgement.{Judgement, number_of, answer, unless_refused};
ghost use Rattle.flips.specs.Written.{field_bytes};
ghost use Rattle.area.specs.Layout.{pattern as pattern_word, reliability_word, figure};
ghost use Rattle.calls.specs.Judgements.{open_image, toggle_input, set_flip, read_netlist, read_gate, take_average, count_seen, write_image, judgement};
ghost use Rattle.calls.specs.Judgements.{image_judgement};
ghost use Rattle.calls.specs.Calls.{open_live, average_of, left, counts_left};
ghost use Rattle.written.specs.Image.{area_image_length};
ghost use Rattle.written.specs.Call.{image_left};
ghost use Rattle.blif.specs.Reading.{text_lines, model_length, blif_refusal, blif_left};
ghost use Rattle.bound.specs.Sharp.{error_halves};
ghost use Rattle.image.specs.Netlist.{image_net};
ghost use Rattle.comparison.specs.Standing.{verdict_number};
ghost use Rattle.comparison.specs.Images.{compared};
ghost use Rattle.shared.specs.Shared.{shared_image_judgement, image_shared};
ghost use Rattle.bench_c.specs.Comparing.{counts_of, image_code, compared_code, result_words, result_left};
ghost use Rattle.bench_c.specs.Codes.{refusal_code, code, FloatBy};

use comparison::{Comparison, Counts, Image, Module, RefusedImage, Verdict};
use netlist::Method;
use refusal::Refusal;

// A refusal as one number: the place fits below 2^32, so C can part the two. No refusal gives 0 (proofs/Zero.antt).
fn refused(refusal: Refusal) -> u64
    ensures { result ≡ refusal_code (number_of refusal.cause) refusal.place }
{
    refusal.cause.number() as u64 * 4_294_967_296 + refusal.place as u64
}

// The number of a call that answers no value.
fn code_of(judged: Result<(), Refusal>) -> u64
    ensures { result ≡ code judged }
{
    match judged {
        Ok(()) => 0,
        Err(refusal) => refused(refusal),
    }
}

// The number of a call that answers one value, which goes to `out`.
fn tell(told: Result<u32, Refusal>, out: &mut u32) -> u64
    ensures value { (judged : Judgement) (value : ℕ) → told ≡ answer judged value → result ≡ code judged }
    ensures out_after { (judged : Judgement) (value : ℕ) → told ≡ answer judged value → out.new ≡ unless_refused judged value out.old }
{
    match told {
        Ok(value) => {
            *out = value;
            0
        }
        Err(refusal) => refused(refusal),
    }
}

// Opens an image; the number of live gates goes to `live`.
#[unsafe(no_mangle)]
pub extern "C" fn bench_open(area: &mut [u32], image: &[u8], live: &mut u32) -> u64
    ensures value { result ≡ code (judgement area.old (open_image image.now)) }
    ensures live_after { live.new ≡ unless_refused (judgement area.old (open_image image.now))
        (open_live image.now) live.old }
    ensures area_after { area.new ≡ left area.old (open_image image.now) }
{
    tell(bench::open(area, image), live)
}

// Toggles one input.
#[unsafe(no_mangle)]
pub extern "C" fn bench_toggle_input(area: &mut [u32], input: u32) -> u64
    ensures value { result ≡ code (judgement area.old (toggle_input input)) }
    ensures area_after { area.new ≡ left area.old (toggle_input input) }
{
    code_of(bench::toggle_input(area, input))
}

// Sets one gate's flip. C passes no array by value, so the eight bytes of the field come as one little-endian number.
#[unsafe(no_mangle)]
pub extern "C" fn bench_set_flip(area: &mut [u32], gate: u32, kind: u8, field: u64) -> u64
    ensures value { result ≡ code (judgement area.old (set_flip gate kind (field_bytes field))) }
    ensures area_after { area.new ≡ left area.old (set_flip gate kind (field_bytes field)) }
{
    code_of(bench::set_flip(area, gate, kind, flips::field_bytes(field)))
}

// Reads the pattern and the reliability, in units and as an f64.
#[unsafe(no_mangle)]
pub extern "C" fn bench_read_netlist(
    area: &[u32],
    pattern: &mut u32,
    units: &mut u32,
    reliability: &mut f64,
) -> u64
    ensures value { result ≡ code (judgement area.now read_netlist) }
    ensures pattern_after { pattern.new ≡ unless_refused (judgement area.now read_netlist) (pattern_word area.now)
        pattern.old }
    ensures units_after { units.new ≡ unless_refused (judgement area.now read_netlist) (reliability_word area.now)
        units.old }
    ensures float_by { FloatBy (judgement area.now read_netlist) (reliability_word area.now) reliability.old
        reliability.new }
{
    match bench::read_netlist(area) {
        Ok(figures) => {
            *pattern = figures.pattern;
            *units = figures.units;
            *reliability = figures.reliability;
            0
        }
        Err(refusal) => refused(refusal),
    }
}

// Reads one gate's right value and failure.
#[unsafe(no_mangle)]
pub extern "C" fn bench_read_gate(
    area: &[u32],
    gate: u32,
    right: &mut u32,
    failure: &mut u32,
) -> u64
    ensures value { result ≡ code (judgement area.now (read_gate gate)) }
    ensures right_after { right.new ≡ unless_refused (judgement area.now (read_gate gate)) (figure area.now gate % 2)
        right.old }
    ensures failure_after { failure.new ≡ unless_refused (judgement area.now (read_gate gate)) (figure area.now gate / 2)
        failure.old }
{
    match bench::read_gate(area, gate) {
        Ok(figures) => {
            *right = figures.right;
            *failure = figures.failure;
            0
        }
        Err(refusal) => refused(refusal),
    }
}

// The weighted average goes to `units`.
#[unsafe(no_mangle)]
pub extern "C" fn bench_average(area: &mut [u32], weights: &[u32], units: &mut u32) -> u64
    ensures value { result ≡ code (judgement area.old (take_average weights.now)) }
    ensures units_after { units.new ≡ unless_refused (judgement area.old (take_average weights.now))
        (average_of area.old weights.now) units.old }
    ensures area_after { area.new ≡ left area.old (take_average weights.now) }
{
    tell(bench::average(area, weights), units)
}

// Counts, gate by gate, the listed patterns in which its flip alone is seen at an output, by flipping it: one count a gate goes to `counts`.
#[unsafe(no_mangle)]
pub extern "C" fn bench_counts_by_flip(area: &[u32], patterns: &[u32], counts: &mut [u32]) -> u64
    ensures value { result ≡ code (judgement area.now (count_seen Method.Flip patterns.now (length counts.old))) }
    ensures counts_after { counts.new ≡ counts_left area.now Method.Flip patterns.now counts.old }
{
    code_of(bench::counts_by_flip(area, patterns, counts))
}

// The counts by masks that are passed back from the outputs.
#[unsafe(no_mangle)]
pub extern "C" fn bench_counts_by_mask(area: &[u32], patterns: &[u32], counts: &mut [u32]) -> u64
    ensures value { result ≡ code (judgement area.now (count_seen Method.Mask patterns.now (length counts.old))) }
    ensures counts_after { counts.new ≡ counts_left area.now Method.Mask patterns.now counts.old }
{
    code_of(bench::counts_by_mask(area, patterns, counts))
}

// Writes the image of the area into `image`; its length goes to `bytes`.
#[unsafe(no_mangle)]
pub extern "C" fn bench_write_image(area: &[u32], image: &mut [u8], bytes: &mut u32) -> u64
    ensures value { result ≡ code (judgement area.now (write_image (length image.old))) }
    ensures bytes_after { bytes.new ≡ unless_refused (judgement area.now (write_image (length image.old)))
        (area_image_length area.now) bytes.old }
    ensures image_after { image.new ≡ image_left area.now image.old }
{
    tell(bench::write_image(area, image), bytes)
}

// Reads a BLIF text and writes its image; the image's length goes to `bytes`.
#[unsafe(no_mangle)]
pub extern "C" fn bench_read_blif(text: &[u8], image: &mut [u8], bytes: &mut u32) -> u64
    ensures value { result ≡ code (blif_refusal text.now (length image.old)) }
    ensures bytes_after { bytes.new ≡ unless_refused (blif_refusal text.now (length image.old))
        (model_length (text_lines text.now)) bytes.old }
    ensures image_after { image.new ≡ blif_left text.now image.old }
{
    tell(blif::read_blif(text, image), bytes)
}

// The error of an image's figures in half units goes to `halves`, the number of live gates to `live`.
#[unsafe(no_mangle)]
pub extern "C" fn bench_error_of_image(image: &[u8], halves: &mut u32, live: &mut u32) -> u64
    ensures value { result ≡ code (image_judgement image.now) }
    ensures halves_after { halves.new ≡ unless_refused (image_judgement image.now) (error_halves (image_net image.now))
        halves.old }
    ensures live_after { live.new ≡ unless_refused (image_judgement image.now) (open_live image.now) live.old }
{
    match comparison::error_of_image(image) {
        Ok(known) => {
            *halves = known.halves;
            *live = known.live;
            0
        }
        Err(refusal) => refused(refusal),
    }
}

// The shared reliability of an image under a pattern, of which only the low bits count, goes to `units`.
#[unsafe(no_mangle)]
pub extern "C" fn bench_shared_reliability(image: &[u8], pattern: u32, units: &mut u32) -> u64
    ensures value { result ≡ code (shared_image_judgement image.now) }
    ensures units_after { units.new ≡ unless_refused (shared_image_judgement image.now) (image_shared image.now pattern)
        units.old }
{
    tell(shared::shared_reliability(image, pattern), units)
}

fn verdict_number(verdict: Verdict) -> u32
    ensures { result ≡ verdict_number verdict }
{
    match verdict {
        Verdict::Undecided => 0,
        Verdict::First => 1,
        Verdict::Second => 2,
    }
}

// Where the inputs are unlike no pattern is counted, and all three are 0.
fn pattern_counts(patterns: Option<Counts>) -> Counts
    ensures { result ≡ counts_of patterns }
{
    patterns.unwrap_or(Counts {
        first: 0,
        second: 0,
        neither: 0,
    })
}

// Images 1 and 2 from bit 40 on.
const FIRST_IMAGE: u64 = 1_099_511_627_776;

const SECOND_IMAGE: u64 = 2_199_023_255_552;

// A refusal of one of two images as one number: the image stands above number and place.
fn refused_image(why: RefusedImage) -> u64
    ensures { result ≡ image_code why.image (number_of why.refusal.cause) why.refusal.place }
{
    let code = refused(why.refusal);
    match why.image {
        Image::First => FIRST_IMAGE + code,
        Image::Second => SECOND_IMAGE + code,
    }
}

// The numbers of bench_comparison in include/bench.h, in its order.
fn result_words(made: Comparison) -> [u32; 16]
    ensures { result ≡ result_words made.verdict made.first made.second (counts_of made.patterns) }
{
    let first = made.first;
    let second = made.second;
    let counts = pattern_counts(made.patterns);
    [
        verdict_number(made.verdict),
        first.inputs,
        first.gates,
        first.outputs,
        first.live,
        first.average,
        first.error,
        second.inputs,
        second.gates,
        second.outputs,
        second.live,
        second.average,
        second.error,
        counts.first,
        counts.second,
        counts.neither,
    ]
}

// Compares two images. All that is known of them goes to `result`.
#[unsafe(no_mangle)]
pub extern "C" fn bench_compare(first: &[u8], second: &[u8], res: &mut [u32; 16]) -> u64
    ensures value { result ≡ compared_code (compared first.now second.now) }
    ensures res_after { res.new ≡ result_left (compared first.now second.now) res.old }
{
    match comparison::compare(first, second) {
        Ok(made) => {
            *res = result_words(made);
            0
        }
        Err(why) => refused_image(why),
    }
}
