// The program sheet: opens the image on standard input, and prints the counts, the reliability under each pattern and the average.
#![tactic(auto)]

ghost use Rattle.std.specs.Prelude.{◌≤◌, ◌≡◌, length};
ghost use Rattle.area.specs.Layout.{most_inputs, most_patterns, head_words};

use refusal::Refusal;
use std::io::{self, Write};

fn print_refused(rt: &impl Print, refusal: Refusal) -> io::Result<()> {
    println!(rt; "refused {refusal}")
}

// How many inputs a netlist has.
#[derive(Clone, Copy)]
struct Inputs {
    count: usize,
    ghost few: { count ≤ most_inputs },
}

// An opened netlist has no more inputs than that, so this takes nothing away: it bounds what is printed.
fn at_most(inputs: usize) -> Inputs {
    Inputs {
        count: inputs.min(area::MOST_INPUTS),
    }
}

// The values of the most inputs as digits, input 0 first.
fn spell_pattern(pattern: u32) -> [u8; area::MOST_INPUTS]
    ensures { length result ≡ most_inputs }
{
    let mut text = [b'0'; area::MOST_INPUTS];
    let mut rest = pattern;
    for digit in text.iter_mut() {
        *digit = b'0' + (rest % 2) as u8;
        rest /= 2;
    }
    text
}

fn print_pattern(rt: &impl Print, pattern: u32, inputs: Inputs) -> io::Result<()> {
    if inputs.count == 0 {
        return print!(rt; "-");
    }
    let text = spell_pattern(pattern);
    io::writer(rt).write_all(&text[..inputs.count])
}

// One line: the area's pattern and its reliability.
fn print_reliability(rt: &impl Print, area: &[u32], inputs: Inputs) -> io::Result<()> {
    match bench::read_netlist(area) {
        Ok(figures) => {
            print_pattern(rt, figures.pattern, inputs)?;
            println!(rt; " {}", figures.units)
        }
        Err(refusal) => print_refused(rt, refusal),
    }
}

// Goes on from pattern q to q + 1: toggles the inputs up to and with the lowest that is 0. After the last pattern comes pattern 0.
fn next_pattern(area: &mut [u32], q: usize, inputs: Inputs) {
    let mut rest = q;
    for input in 0..inputs.count {
        // An opened netlist has this input, so nothing is refused.
        let _ = bench::toggle_input(area, input as u32);
        if rest % 2 == 0 {
            return;
        }
        rest /= 2;
    }
}

fn print_patterns(rt: &impl Print, area: &mut [u32], inputs: Inputs) -> io::Result<()> {
    for q in 0..average::pattern_count(inputs.count) {
        print_reliability(rt, area, inputs)?;
        next_pattern(area, q, inputs);
    }
    Ok(())
}

fn equal_weights() -> [u32; area::MOST_PATTERNS]
    ensures { most_patterns ≡ length result }
{
    [1; area::MOST_PATTERNS]
}

fn print_average(rt: &impl Print, area: &mut [u32], inputs: Inputs) -> io::Result<()> {
    let weights = equal_weights();
    let count = average::pattern_count(inputs.count);
    match bench::average(area, &weights[..count]) {
        Ok(units) => println!(rt; "average {units}"),
        Err(refusal) => print_refused(rt, refusal),
    }
}

fn print_counts(rt: &impl Print, area: &[u32], live: u32) -> io::Result<()>
    requires { head_words ≤ length area.now }
{
    let inputs = area::inputs(area);
    let gates = area::gates(area);
    let outputs = area::outputs(area);
    println!(rt; "inputs {inputs} gates {gates} outputs {outputs} live {live}")
}

// The largest image has 32,768 bytes; one byte more is read, so that a longer one is refused. The area holds the largest netlist.
fn main(rt: HostRuntime) -> io::Result<()> {
    let mut image = [0u8; 32769];
    let length = reading::read_full(&mut rt.stdin(), &mut image)?;
    let mut area = [0u32; area::MOST_WORDS];
    match bench::open(&mut area, &image[..length]) {
        Ok(live) => {
            print_counts(&rt, &area, live)?;
            let inputs = at_most(area::inputs(&area));
            print_patterns(&rt, &mut area, inputs)?;
            print_average(&rt, &mut area, inputs)
        }
        Err(refusal) => print_refused(&rt, refusal),
    }
}
