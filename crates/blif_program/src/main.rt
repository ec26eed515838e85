// The program blif: reads the BLIF text on standard input and writes its image, or one line that says why it is refused.
#![tactic(auto)]

use refusal::Refusal;
use std::io::{self, Write};

fn print_refused(rt: &impl Print, refusal: Refusal) -> io::Result<()> {
    println!(rt; "refused {refusal}")
}

// The longest text has 32,768 bytes; one byte more is read, so that a longer one is refused. The largest image has 20,624 bytes.
fn main(rt: HostRuntime) -> io::Result<()> {
    let mut text = [0u8; 32769];
    let length = reading::read_full(&mut rt.stdin(), &mut text)?;
    let mut image = [0u8; 20624];
    match blif::read_blif(&text[..length], &mut image) {
        // The image is never longer than 20,624 bytes, so `min` takes nothing away: it bounds what is written.
        Ok(bytes) => io::writer(&rt).write_all(&image[..bytes.min(20624) as usize]),
        Err(refusal) => print_refused(&rt, refusal),
    }
}
