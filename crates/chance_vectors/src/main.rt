// Compares chance::read_units with vectors that tests/chance_vectors.py works out, read from standard input. A vector has 14 bytes: kind,
// field, 0 if it is refused, 1 if it is accepted, 2 if its chance is above 0.5, and its units.
#![tactic(auto)]

use chance::FlipFault;
use std::io::{self, Read};

// No run has as many vectors: a loop must be seen to end.
const MOST: u64 = 1_000_000;

// Whether a vector says this answer, and these units.
fn says(v: [u8; 14], answer: u8, units: u32) -> bool {
    v[9] == answer && u32::from_le_bytes([v[10], v[11], v[12], v[13]]) == units
}

// The conversion alone, which goes up to 1.
fn converted(kind: u8, field: [u8; 8]) -> u32 {
    match chance::read_flip(kind, field) {
        Some(flip) => chance::units(flip),
        None => 0,
    }
}

fn agrees(v: [u8; 14]) -> bool {
    let field = [v[1], v[2], v[3], v[4], v[5], v[6], v[7], v[8]];
    match chance::read_units(v[0], field) {
        Ok(units) => says(v, 1, units),
        Err(FlipFault::AboveHalf) => says(v, 2, converted(v[0], field)),
        Err(FlipFault::Unreadable) => says(v, 0, 0),
    }
}

// Whether the next vector agrees, if there is one.
fn next_agrees<R: Read>(input: &mut R) -> io::Result<Option<bool>> {
    let mut v = [0u8; 14];
    let n = reading::read_full(input, &mut v)?;
    if n < 14 {
        return Ok(None);
    }
    Ok(Some(agrees(v)))
}

// All vectors up to the end agree, and so many, or the one with this number, counted from 0, differs.
fn compare<R: Read>(input: &mut R) -> io::Result<Result<u64, u64>> {
    for number in 0..MOST {
        match next_agrees(input)? {
            Some(true) => {}
            Some(false) => {
                return Ok(Err(number));
            }
            None => {
                return Ok(Ok(number));
            }
        }
    }
    Ok(Ok(MOST))
}

fn main(rt: HostRuntime) -> io::Result<()> {
    match compare(&mut rt.stdin())? {
        Ok(count) => println!(rt; "conversions {count} agree"),
        Err(number) => println!(rt; "conversion {number} differs"),
    }
}
