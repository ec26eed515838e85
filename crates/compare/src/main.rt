// The program compare: takes the paths of two images, and prints a line for each module, which of them stands higher, and the patterns' counts.
#![tactic(auto)]

use comparison::{Comparison, Counts, Image, Module, RefusedImage, Verdict};
use std::env::Env;
use std::io::{self, Write};
use std::rt::Files;
use std::{fs, str};

// Parts of 10^-10 as a decimal fraction with ten decimals.
fn print_parts(rt: &impl Print, parts: u64) -> io::Result<()> {
    print!(rt; "{}.", parts / decimals::PARTS_IN_ONE)?;
    let text = decimals::spell(parts);
    io::writer(rt).write_all(&text[..])
}

// After the units the average as a decimal fraction, and an error that holds for that fraction as it is printed.
fn print_module(rt: &impl Print, module: Module) -> io::Result<()> {
    print!(rt;
        "inputs {} gates {} outputs {} ",
        module.inputs, module.gates, module.outputs
    )?;
    print!(rt;
        "live {} average {} error {} ",
        module.live, module.average, module.error
    )?;
    print_parts(rt, decimals::shown_parts(module.average))?;
    print!(rt; " ± ")?;
    print_parts(rt, decimals::shown_error(module.average, module.error))?;
    println!(rt;)
}

fn verdict_word(verdict: Verdict) -> &'static str {
    match verdict {
        Verdict::First => "first",
        Verdict::Second => "second",
        Verdict::Undecided => "undecided",
    }
}

fn image_word(image: Image) -> &'static str {
    match image {
        Image::First => "first",
        Image::Second => "second",
    }
}

fn print_counts(rt: &impl Print, counts: Counts) -> io::Result<()> {
    println!(rt;
        "patterns first {} second {} neither {}",
        counts.first, counts.second, counts.neither
    )
}

fn print_comparison(rt: &impl Print, made: Comparison) -> io::Result<()> {
    print_module(rt, made.first)?;
    print_module(rt, made.second)?;
    println!(rt; "{}", verdict_word(made.verdict))?;
    match made.patterns {
        Some(counts) => print_counts(rt, counts),
        None => Ok(()),
    }
}

fn print_refused(rt: &impl Print, why: RefusedImage) -> io::Result<()> {
    println!(rt; "refused {} {}", image_word(why.image), why.refusal)
}

// Opens the file that an argument names; none where there is no such argument, or no such file, or a path that is no UTF-8.
fn open_argument<R: Files + Env>(rt: &R, i: usize) -> Option<R::File> {
    let mut path = [0u8; 4096];
    let length = rt.arg(i, &mut path).ok()?;
    let path = str::from_utf8(&path[..length]).ok()?;
    fs::open(rt, path).ok()
}

// The largest image has 32,768 bytes; one byte more is read, so that a longer one is refused. A file that cannot be opened leaves the output empty.
fn main(rt: HostRuntime) -> io::Result<()> {
    let one = open_argument(&rt, 1);
    let other = open_argument(&rt, 2);
    let (Some(mut one), Some(mut other)) = (one, other) else {
        return Ok(());
    };
    let mut first = [0u8; 32769];
    let mut second = [0u8; 32769];
    let first_length = reading::read_full(&mut one, &mut first)?;
    let second_length = reading::read_full(&mut other, &mut second)?;
    match comparison::compare(&first[..first_length], &second[..second_length]) {
        Ok(made) => print_comparison(&rt, made),
        Err(why) => print_refused(&rt, why),
    }
}
