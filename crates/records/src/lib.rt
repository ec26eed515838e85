// The records of an image, written into bytes.
#![tactic(auto)]

ghost use Rattle.std.specs.Prelude.{◌≡◌, ℕ, ◌+◌, ◌<◌, ◌≤◌, length, get_or};
ghost use Rattle.std.proofs.lemmas.List.Edits.{sets};
ghost use Rattle.image.specs.Image.{record_bytes, trailer_bytes};
ghost use Rattle.records.specs.Bytes.{two_bytes, long_bytes, record_of, trailer_of};

fn two_bytes(x: usize) -> [u8; 2]
    requires { x < 65_536 }
    ensures { result ≡ two_bytes x }
{
    (x as u16).to_le_bytes()
}

fn long_bytes(x: usize) -> [u8; 4]
    requires { x < 4_294_967_296 }
    ensures { result ≡ long_bytes x }
{
    (x as u32).to_le_bytes()
}

// Stores bytes from `base` on.
fn store(bytes: &mut [u8], base: usize, values: &[u8])
    requires { base + length values.now ≤ length bytes.old }
    ensures { bytes.new ≡ sets bytes.old base values.now }
{
    bytes[base..base + values.len()].copy_from_slice(values);
}

// An output word.
pub fn write_output(bytes: &mut [u8], at: usize, source: usize)
    requires { (at + 2 ≤ length bytes.old) × (source < 65_536) }
    ensures { bytes.new ≡ sets bytes.old at (two_bytes source) }
{
    store(bytes, at, &two_bytes(source));
}

// A gate's record.
pub fn write_record(
    bytes: &mut [u8],
    at: usize,
    count: usize,
    kind: u8,
    field: [u8; 8],
    table: usize,
    pins: [usize; area::MOST_PINS],
)
    requires record_bytes_in_bounds { at + record_bytes ≤ length bytes.old }
    requires count_bound { (count < 256) × (table < 65_536) × ((i : ℕ) → get_or pins i 0 < 65_536) }
    ensures { bytes.new ≡ sets bytes.old at (record_of count kind table pins field) }
{
    store(bytes, at, &[count as u8, kind]);
    store(bytes, at + 2, &two_bytes(table));
    for (i, pin) in pins.iter().enumerate() {
        store(bytes, at + 4 + 2 * i, &two_bytes(*pin));
    }
    store(bytes, at + 12, &field);
}

// The trailer of an image with an empty heading.
pub fn write_trailer(bytes: &mut [u8], at: usize, inputs: usize, gates: usize, outputs: usize)
    requires trailer_bytes_in_bounds { at + trailer_bytes ≤ length bytes.old }
    requires inputs_bound { (inputs < 65_536) × (gates < 65_536) × (outputs < 65_536) }
    ensures { bytes.new ≡ sets bytes.old at (trailer_of inputs gates outputs) }
{
    let back = image::RECORD_BYTES * gates + image::OUTPUT_BYTES * outputs;
    store(bytes, at, &two_bytes(inputs));
    store(bytes, at + 2, &two_bytes(gates));
    store(bytes, at + 4, &two_bytes(outputs));
    store(bytes, at + 6, &two_bytes(1));
    store(bytes, at + 8, &long_bytes(back));
    store(bytes, at + 12, &long_bytes(back + image::TRAILER_BYTES));
}
