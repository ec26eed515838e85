// Which of two modules stands higher: the average reliability of each, how far it may be from the exact one, and whether that decides.
#![tactic(auto)]

ghost use Rattle.std.specs.Prelude.{Ok, ◌≡◌, Bool, ℕ, ◌+◌, ◌^◌, ◌<◌, ◌≤◌, length, get_or};
ghost use Rattle.lists.specs.Lists.{sum_below};
ghost use Rattle.refusal.specs.Judgement.{Fine};
ghost use Rattle.rounding.specs.Rounding.{units_in_one, round_div};
ghost use Rattle.figure.specs.Figure.{bit_of};
ghost use Rattle.bound.specs.Sharp.{error_halves};
ghost use Rattle.area.specs.Layout as layout;
ghost use Rattle.image.specs.Image.{image_inputs};
ghost use Rattle.image.specs.Netlist.{image_net};
ghost use Rattle.calls.specs.Judgements.{open_image, judgement, image_judgement};
ghost use Rattle.calls.specs.Calls.{open_live, left};
ghost use Rattle.bench.specs.Answers.{opened};
ghost use Rattle.comparison.specs.Standing as standing;
ghost use Rattle.comparison.specs.Standing.{slack_limit, beyond, same_verdict, counts_by, averages_verdict, patterns_between, answered};
ghost use Rattle.comparison.specs.Images.{opened_words, figures_of, module_of, error_read, module_read, with_image, compared};

use refusal::Refusal;

// What is known of a module: its counts and live gates, its average in units, and the error of its figures in half units.
#[derive(Clone, Copy)]
pub struct Module {
    pub inputs: u32,
    pub gates: u32,
    pub outputs: u32,
    pub live: u32,
    pub average: u32,
    pub error: u32,
}

// Which one is higher.
#[derive(Clone, Copy)]
pub enum Verdict {
    First,
    Second,
    Undecided,
}

// Patterns by their verdicts: the first is surely higher there, the second is, or the errors leave it open.
#[derive(Clone, Copy)]
pub struct Counts {
    pub first: u32,
    pub second: u32,
    pub neither: u32,
}

// One of the two images.
#[derive(Clone, Copy)]
pub enum Image {
    First,
    Second,
}

// What is known of an image's figures: their error in half units, and its live gates.
#[derive(Clone, Copy)]
pub struct ImageError {
    pub halves: u32,
    pub live: u32,
}

// Two modules compared; modules with unlike inputs have no patterns in common.
#[derive(Clone, Copy)]
pub struct Comparison {
    pub verdict: Verdict,
    pub first: Module,
    pub second: Module,
    pub patterns: Option<Counts>,
}

// Which of two images is refused, and why.
#[derive(Clone, Copy)]
pub struct RefusedImage {
    pub image: Image,
    pub refusal: Refusal,
}

// The first figure is more than so many half units above the second.
fn is_beyond(slack: u64, high: u32, low: u32) -> bool
    requires { slack < slack_limit }
    ensures { result ≡ beyond slack high low }
{
    2 * low as u64 + slack < 2 * high as u64
}

fn judge(slack: u64, first: u32, second: u32) -> Verdict
    requires { slack < slack_limit }
    ensures { result ≡ standing.verdict slack first second }
{
    if is_beyond(slack, first, second) {
        return Verdict::First;
    }
    if is_beyond(slack, second, first) {
        return Verdict::Second;
    }
    Verdict::Undecided
}

// One pattern more, which has this verdict.
fn count_one(counts: Counts, verdict: Verdict) -> Counts
    requires { (counts.first < layout.most_patterns) × (counts.second < layout.most_patterns) × (counts.neither < layout.most_patterns) }
    ensures { (result.first ≡ counts.first + bit_of (same_verdict Verdict.First verdict))
        × (result.second ≡ counts.second + bit_of (same_verdict Verdict.Second verdict))
        × (result.neither ≡ counts.neither + bit_of (same_verdict Verdict.Undecided verdict)) }
{
    match verdict {
        Verdict::First => Counts {
            first: counts.first + 1,
            ..counts
        },
        Verdict::Second => Counts {
            second: counts.second + 1,
            ..counts
        },
        Verdict::Undecided => Counts {
            neither: counts.neither + 1,
            ..counts
        },
    }
}

// The verdicts of so many patterns, counted.
fn count_patterns(first: &[u32], second: &[u32], errors: u64, count: usize) -> Counts
    requires { (count ≤ length first.now) × (count ≤ length second.now) × (count ≤ layout.most_patterns) × (errors < slack_limit) }
    ensures { result ≡ counts_by (λ q. standing.verdict errors (get_or first.now q 0) (get_or second.now q 0)) count }
{
    let mut counts = Counts {
        first: 0,
        second: 0,
        neither: 0,
    };
    for (one, other) in first[..count].iter().zip(&second[..count]) {
        counts = count_one(counts, judge(errors, *one, *other));
    }
    counts
}

// The mean of so many figures, rounded as the call "average" rounds.
fn equal_mean(figures: &[u32], count: usize) -> u32
    requires count_nonzero { (0 < count) × (count ≤ length figures.now) × (count ≤ layout.most_patterns) }
    requires by_index { (q : ℕ) → q < count → get_or figures.now q 0 ≤ units_in_one }
    ensures { result ≡ round_div (sum_below count (λ q. get_or figures.now q 0)) count }
{
    let mut sum = 0;
    for figure in &figures[..count] {
        sum += u64::from(*figure);
    }
    rounding::rounded(sum, count as u64) as u32
}

// The error of an image's netlist as it is opened, in half units, and its live gates.
pub fn error_of_image(image: &[u8]) -> Result<ImageError, Refusal>
    ensures { result ≡ error_read (image_judgement image.now) (error_halves (image_net image.now)) (open_live image.now) }
{
    let mut area = [0u32; area::MOST_WORDS];
    let live = bench::open(&mut area, image)?;
    let halves = errors::error_halves(&area, image);
    Ok(ImageError { halves, live })
}

// A module whose image was opened in the area, with so many live gates; and its reliability under every pattern.
fn opened_module(figures: &mut [u32], area: &[u32], image: &[u8], live: u32) -> Module
    requires area_value { (area.now ≡ opened_words image.now) × (image_judgement image.now ≡ Fine) × (live ≡ open_live image.now) }
    requires most_patterns_in_bounds { layout.most_patterns ≤ length figures.old }
    ensures value { result ≡ module_of image.now }
    ensures by_index { (q : ℕ) → q < 2 ^ image_inputs image.now → get_or figures.new q 0 ≡ figures_of image.now q }
{
    patterns::each_reliability(figures, area);
    let inputs = area::inputs(area);
    let average = equal_mean(figures, average::pattern_count(inputs));
    let error = errors::error_halves(area, image);
    Module {
        inputs: inputs as u32,
        gates: area::gates(area) as u32,
        outputs: area::outputs(area) as u32,
        live: live,
        average: average,
        error: error,
    }
}

// Opening, for a module. Not inlined: its words, 33 KB, would else stand on the stack while the patterns are walked.
#[inline(never)]
fn open(area: &mut [u32], image: &[u8]) -> Result<u32, Refusal>
    ensures value { result ≡ opened (judgement area.old (open_image image.now)) (open_live image.now) }
    ensures area_after { area.new ≡ left area.old (open_image image.now) }
{
    bench::open(area, image)
}

// A module, and its reliability under every pattern.
fn read_module(figures: &mut [u32], image: &[u8]) -> Result<Module, Refusal>
    requires { layout.most_patterns ≤ length figures.old }
    ensures value { result ≡ module_read (image_judgement image.now) (module_of image.now) }
    ensures q_after { image_judgement image.now ≡ Fine
        → (q : ℕ) → q < 2 ^ image_inputs image.now → get_or figures.new q 0 ≡ figures_of image.now q }
{
    let mut area = [0u32; area::MOST_WORDS];
    let live = open(&mut area, image)?;
    Ok(opened_module(figures, &area, image, live))
}

// Their patterns, where both have the same number of inputs.
fn compare_patterns(
    first: Module,
    second: Module,
    first_figures: &[u32],
    second_figures: &[u32],
) -> Option<Counts>
    requires inputs_le_most_inputs { first.inputs ≤ layout.most_inputs }
    requires most_patterns_in_bounds { (layout.most_patterns ≤ length first_figures.now) × (layout.most_patterns ≤ length second_figures.now) }
    ensures { result ≡ patterns_between first (λ q. get_or first_figures.now q 0) second (λ q. get_or second_figures.now q 0) }
{
    if first.inputs != second.inputs {
        return None;
    }
    let count = average::pattern_count(area::index(first.inputs));
    Some(count_patterns(
        first_figures,
        second_figures,
        first.error as u64 + second.error as u64,
        count,
    ))
}

fn compare_modules(
    first: Module,
    second: Module,
    first_figures: &[u32],
    second_figures: &[u32],
) -> Comparison
    requires inputs_le_most_inputs { first.inputs ≤ layout.most_inputs }
    requires most_patterns_in_bounds { (layout.most_patterns ≤ length first_figures.now) × (layout.most_patterns ≤ length second_figures.now) }
    ensures { Ok result ≡ answered first (λ q. get_or first_figures.now q 0) second (λ q. get_or second_figures.now q 0) }
{
    let verdict = judge(
        first.error as u64 + second.error as u64 + 2,
        first.average,
        second.average,
    );
    let patterns = compare_patterns(first, second, first_figures, second_figures);
    Comparison {
        verdict,
        first,
        second,
        patterns,
    }
}

// A module, or the refusal of the image that it was to be read from.
fn named(image: Image, read: Result<Module, Refusal>) -> Result<Module, RefusedImage>
    ensures { result ≡ with_image image read }
{
    read.map_err(|refusal| RefusedImage { image, refusal })
}

// Compares two images: opens both, takes their averages with weight 1 for every pattern, and decides where the errors leave no doubt.
pub fn compare(first: &[u8], second: &[u8]) -> Result<Comparison, RefusedImage>
    ensures { result ≡ compared first.now second.now }
{
    let mut first_figures = [0u32; area::MOST_PATTERNS];
    let mut second_figures = [0u32; area::MOST_PATTERNS];
    let one = named(Image::First, read_module(&mut first_figures, first))?;
    let other = named(Image::Second, read_module(&mut second_figures, second))?;
    Ok(compare_modules(one, other, &first_figures, &second_figures))
}
