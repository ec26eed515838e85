// Reading a netlist image: refusals 1 to 8 of document 01 and 22 of document 02, and the words of a work area whose figures are not worked out.
#![tactic(auto)]

ghost use Rattle.std.specs.Prelude.{◌≡◌, ◌+◌, ◌<◌, ◌≤◌, length};
ghost use Rattle.std.proofs.lemmas.List.Edits.{sets};
ghost use Rattle.refusal.specs.Judgement.{Fine, lowest, answer};
ghost use Rattle.chance.specs.Flip.{flip_units};
ghost use Rattle.area.specs.Layout.{most_inputs, most_gates, most_outputs, most_words, head_words, gate_index, figure_index, outputs_index, needed};
ghost use Rattle.image.specs.Image.{trailer_bytes, middle_bytes, record_bytes, output_bytes, u16_at, u32_at, four_numbers, eight_bytes, record_at};
ghost use Rattle.image.specs.Image.{image_gates, middle, record_kind};
ghost use Rattle.image.specs.Refusals.{length_right, back_right, trailer_refusal, TrailerRight};
ghost use Rattle.image.specs.Refusals.{flip_refusal, gate_refusal, output_refusal, middle_refusal, netlist_refusal, image_refusal};
ghost use Rattle.image.specs.Loading.{record_words, output_word, gate_list, output_list, middle_words, image_words, image_over};

use chance::FlipFault;
use refusal::{Cause, Refusal};

const LONGEST_IMAGE: usize = 32_768;

const KNOWN_FORMAT: u32 = 1;

// The trailer, and its fields after the number of inputs.
pub const TRAILER_BYTES: usize = 16;

const GATES: usize = 2;

const OUTPUTS: usize = 4;

const FORMAT: usize = 6;

const BACK: usize = 8;

const TOTAL: usize = 12;

// A gate record, and its fields after the number of pins.
pub const RECORD_BYTES: usize = 20;

const KIND: usize = 1;

const TABLE: usize = 2;

const PINS: usize = 4;

const FIELD: usize = 12;

pub const OUTPUT_BYTES: usize = 2;

// Two and four bytes as one number, the lowest first.
fn two_bytes(bytes: &[u8], at: usize) -> u32
    requires { at + 2 ≤ length bytes.now }
    ensures { (result ≡ u16_at bytes.now at) × (result < 65_536) }
{
    u32::from(u16::from_le_bytes([bytes[at], bytes[at + 1]]))
}

fn four_bytes(bytes: &[u8], at: usize) -> u32
    requires { at + 4 ≤ length bytes.now }
    ensures { result ≡ u32_at bytes.now at }
{
    chance::four_bytes(bytes[at], bytes[at + 1], bytes[at + 2], bytes[at + 3])
}

// A number of two bytes as a count.
fn count(bytes: &[u8], at: usize) -> usize
    requires { at + 2 ≤ length bytes.now }
    ensures { (result ≡ u16_at bytes.now at) × (result < 65_536) }
{
    area::index(two_bytes(bytes, at))
}

fn four_numbers(bytes: &[u8], at: usize) -> [u32; 4]
    requires { at + 8 ≤ length bytes.now }
    ensures { result ≡ four_numbers bytes.now at }
{
    [
        two_bytes(bytes, at),
        two_bytes(bytes, at + 2),
        two_bytes(bytes, at + 4),
        two_bytes(bytes, at + 6),
    ]
}

fn eight_bytes(bytes: &[u8], at: usize) -> [u8; 8]
    requires { at + 8 ≤ length bytes.now }
    ensures { result ≡ eight_bytes bytes.now at }
{
    let mut field = [0u8; 8];
    field.copy_from_slice(&bytes[at..at + 8]);
    field
}

// The one place where a flip field without units is refused: one that cannot be read with the cause that is given, one above 0.5 with its own.
pub fn units_of_flip(
    kind: u8,
    field: [u8; 8],
    unreadable: Cause,
    place: u32,
) -> Result<u32, Refusal>
    ensures { result ≡ answer (flip_refusal unreadable place kind field) (flip_units kind field) }
{
    match chance::read_units(kind, field) {
        Ok(units) => Ok(units),
        Err(fault) => match fault {
            FlipFault::Unreadable => Err(Refusal {
                cause: unreadable,
                place,
            }),
            FlipFault::AboveHalf => Err(Refusal {
                cause: Cause::ChanceAboveHalf,
                place,
            }),
        },
    }
}

// The records and the output words of an image, and the counts that its trailer gives.
#[derive(Clone, Copy)]
struct Records<'a> {
    bytes: &'a [u8],
    inputs: usize,
    gates: usize,
    outputs: usize,
}

impl Records<'_> {
    // Gate j: refusals 5, 6, 7 and 22, else its words, the figure word 0.
    fn load_gate(&self, j: usize, words: &mut [u32]) -> Result<(), Refusal>
        requires record_bytes_in_bounds { record_at j + record_bytes ≤ length self.now.bytes.now }
        requires j_in_bounds { figure_index j < length words.old }
        requires inputs_le_most_inputs { (self.now.inputs ≤ most_inputs) × (j < most_gates) }
        ensures value { result ≡ gate_refusal self.now.bytes.now self.now.inputs j }
        ensures words_after { result ≡ Fine → words.new ≡ sets words.old (gate_index j) (record_words self.now.bytes.now j) }
    {
        let at = RECORD_BYTES * j;
        let count = u32::from(self.bytes[at]);
        let used = area::index(count);
        let table = two_bytes(self.bytes, at + TABLE);
        let pins = four_numbers(self.bytes, at + PINS);
        if !rules::gate_shape(used, table, pins) {
            return Err(Refusal {
                cause: Cause::GateShape,
                place: j as u32,
            });
        }
        if !rules::used_below(self.inputs + j, used, pins) {
            return Err(Refusal {
                cause: Cause::GatePin,
                place: j as u32,
            });
        }
        let field = eight_bytes(self.bytes, at + FIELD);
        let units = units_of_flip(self.bytes[at + KIND], field, Cause::GateFlip, j as u32)?;
        let gate = [count, table, pins[0], pins[1], pins[2], pins[3], units, 0];
        area::store(words, area::gate_index(j), &gate[..]);
        Ok(())
    }

    // Each gate in turn.
    fn load_gates(&self, words: &mut [u32]) -> Result<(), Refusal>
        requires gates_in_bounds { record_at self.now.gates ≤ length self.now.bytes.now }
        requires gates_in_bounds_2 { outputs_index self.now.gates ≤ length words.old }
        requires inputs_le_most_inputs { (self.now.inputs ≤ most_inputs) × (self.now.gates ≤ most_gates) }
        ensures value { result ≡ lowest (gate_refusal self.now.bytes.now self.now.inputs) self.now.gates }
        ensures words_after { result ≡ Fine → words.new ≡ sets words.old head_words (gate_list self.now.bytes.now self.now.gates) }
    {
        for j in 0..self.gates {
            self.load_gate(j, words)?;
        }
        Ok(())
    }

    // Output k: refusal 8, else its word.
    fn load_output(&self, k: usize, words: &mut [u32]) -> Result<(), Refusal>
        requires output_bytes_in_bounds { middle_bytes self.now.gates k + output_bytes ≤ length self.now.bytes.now }
        requires k_in_bounds { outputs_index self.now.gates + k < length words.old }
        requires inputs_le_most_inputs { (self.now.inputs ≤ most_inputs) × (self.now.gates ≤ most_gates) × (k < most_outputs) }
        ensures value { result ≡ output_refusal self.now.bytes.now self.now.inputs self.now.gates k }
        ensures words_after { result ≡ Fine → words.new ≡ sets words.old (outputs_index self.now.gates + k) (output_word self.now.bytes.now self.now.gates k) }
    {
        let source = two_bytes(self.bytes, RECORD_BYTES * self.gates + OUTPUT_BYTES * k);
        if area::index(source) >= self.inputs + self.gates {
            return Err(Refusal {
                cause: Cause::OutputSource,
                place: k as u32,
            });
        }
        words[area::outputs_index(self.gates) + k] = source;
        Ok(())
    }

    // Each output in turn.
    fn load_outputs(&self, words: &mut [u32]) -> Result<(), Refusal>
        requires outputs_in_bounds { middle_bytes self.now.gates self.now.outputs ≤ length self.now.bytes.now }
        requires outputs_in_bounds_2 { needed self.now.gates self.now.outputs ≤ length words.old }
        requires inputs_le_most_inputs { (self.now.inputs ≤ most_inputs) × (self.now.gates ≤ most_gates) × (self.now.outputs ≤ most_outputs) }
        ensures value { result ≡ lowest (output_refusal self.now.bytes.now self.now.inputs self.now.gates) self.now.outputs }
        ensures words_after { result ≡ Fine
            → words.new ≡ sets words.old (outputs_index self.now.gates) (output_list self.now.bytes.now self.now.gates self.now.outputs) }
    {
        for k in 0..self.outputs {
            self.load_output(k, words)?;
        }
        Ok(())
    }

    // The head of the area, and after it the gates and the outputs. The words are lent by the caller, who is asked for room for every netlist.
    fn load(&self, words: &mut [u32]) -> Result<(), Refusal>
        requires outputs_in_bounds { middle_bytes self.now.gates self.now.outputs ≤ length self.now.bytes.now }
        requires most_words_in_bounds { most_words ≤ length words.old }
        requires inputs_le_most_inputs { (self.now.inputs ≤ most_inputs) × (self.now.gates ≤ most_gates) × (self.now.outputs ≤ most_outputs) }
        ensures value { result ≡ middle_refusal self.now.bytes.now self.now.inputs self.now.gates self.now.outputs }
        ensures words_after { result ≡ Fine → words.new ≡ sets words.old 0 (middle_words self.now.bytes.now self.now.inputs self.now.gates self.now.outputs) }
    {
        let head = [
            self.inputs as u32,
            self.gates as u32,
            self.outputs as u32,
            0,
            0,
            0,
            0,
            0,
        ];
        area::store(words, 0, &head[..]);
        self.load_gates(words)?;
        self.load_outputs(words)
    }
}

// Refusal 1 of an image that has a trailer.
fn length_right(image: &[u8]) -> bool
    requires { trailer_bytes ≤ length image.now }
    ensures { result ≡ length_right image.now }
{
    let length = image.len();
    if length > LONGEST_IMAGE {
        return false;
    }
    area::index(four_bytes(image, length - TRAILER_BYTES + TOTAL)) == length
}

// Refusal 4.
fn back_right(image: &[u8]) -> bool
    requires { trailer_bytes ≤ length image.now }
    ensures { result ≡ back_right image.now }
{
    let at = image.len() - TRAILER_BYTES;
    let back = area::index(four_bytes(image, at + BACK));
    let gates = count(image, at + GATES);
    let outputs = count(image, at + OUTPUTS);
    if back != RECORD_BYTES * gates + OUTPUT_BYTES * outputs {
        return false;
    }
    back <= at
}

// Refusals 1 to 4; nothing is read of an image that is too short for a trailer.
fn judge_trailer(image: &[u8]) -> Result<(), Refusal>
    ensures { result ≡ trailer_refusal image.now }
{
    if image.len() < TRAILER_BYTES {
        return Err(Refusal {
            cause: Cause::WrongLength,
            place: 0,
        });
    }
    if !length_right(image) {
        return Err(Refusal {
            cause: Cause::WrongLength,
            place: 0,
        });
    }
    let at = image.len() - TRAILER_BYTES;
    if two_bytes(image, at + FORMAT) != KNOWN_FORMAT {
        return Err(Refusal {
            cause: Cause::WrongFormat,
            place: 0,
        });
    }
    let inputs = count(image, at);
    let gates = count(image, at + GATES);
    if !rules::counts_in_range(inputs, gates, count(image, at + OUTPUTS)) {
        return Err(Refusal {
            cause: Cause::WrongCounts,
            place: 0,
        });
    }
    if !back_right(image) {
        return Err(Refusal {
            cause: Cause::WrongBack,
            place: 0,
        });
    }
    Ok(())
}

// The netlist of an image whose trailer is right. The middle is handed on as a part of the image.
fn load_netlist(image: &[u8], words: &mut [u32]) -> Result<(), Refusal>
    requires trailer_right { TrailerRight image.now }
    requires most_words_in_bounds { most_words ≤ length words.old }
    ensures value { result ≡ netlist_refusal image.now }
    ensures words_after { result ≡ Fine → words.new ≡ sets words.old 0 (image_words image.now) }
{
    let at = image.len() - TRAILER_BYTES;
    let inputs = count(image, at);
    let gates = count(image, at + GATES);
    let outputs = count(image, at + OUTPUTS);
    let start = at - area::index(four_bytes(image, at + BACK));
    let records = Records {
        bytes: &image[start..at],
        inputs,
        gates,
        outputs,
    };
    records.load(words)
}

// Reads an image, whatever its bytes, into the words of a work area whose figures are not worked out. The caller lends words enough for
// every netlist; where the image is refused they hold nothing of use.
pub fn load(image: &[u8], words: &mut [u32]) -> Result<(), Refusal>
    requires { most_words ≤ length words.old }
    ensures value { result ≡ image_refusal image.now }
    ensures words_after { image_refusal image.now ≡ Fine → words.new ≡ image_over image.now words.old }
{
    judge_trailer(image)?;
    load_netlist(image, words)
}

// The kind of a gate's flip, which no word of an area holds. The caller has judged the image.
pub fn gate_kind(image: &[u8], gate: usize) -> u8
    requires { TrailerRight image.now × (gate < image_gates image.now) }
    ensures { result ≡ record_kind (middle image.now) gate }
{
    let at = image.len() - TRAILER_BYTES;
    let start = at - area::index(four_bytes(image, at + BACK));
    image[start + RECORD_BYTES * gate + KIND]
}
