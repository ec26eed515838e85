// The image of a text whose gates are placed.
#![tactic(auto)]

ghost use Rattle.std.specs.Prelude.{◌≡◌, map, ℕ, ◌+◌, ◌*◌, ◌<◌, ◌≤◌, length, get_or};
ghost use Rattle.std.proofs.lemmas.List.Edits.{sets};
ghost use Rattle.lists.specs.Lists.{joined};
ghost use Rattle.area.specs.Layout.{most_pins, most_gates};
ghost use Rattle.image.specs.Image.{record_bytes, middle_bytes, image_length};
ghost use Rattle.placing.specs.Placing.{entries};
ghost use Rattle.meaning.specs.Net.{source_of};
ghost use Rattle.records.specs.Bytes.{image_of};
ghost use Rattle.writing.specs.Written.{output_in, Sourced};
ghost use Rattle.writing.specs.Lent.{HeldWords, LentPins, LentGates, LentOrder, OutputsIn, lent_record, lent_net};

use names::Words;
use placing::Sources;

// The model of a text whose names are all known: its words, the sources of its gates, the first word of each gate's line, and each output's definition.
#[derive(Clone, Copy)]
pub struct Model<'a> {
    pub words: &'a Words<'a>,
    pub sources: Sources<'a>,
    pub heads: &'a [u16],
    pub outs: &'a [u16],
}

// The place of each gate in the image, counted from 1, and the gate that stands at each place, from the first on.
#[derive(Clone, Copy)]
pub struct Placement<'a> {
    pub place: &'a [u16; area::MOST_GATES],
    pub order: &'a [u16; area::MOST_GATES],
}

// The source of the image that a definition becomes. Every gate is placed, so that no entry is 0.
fn source_of(place: &[u16; area::MOST_GATES], inputs: usize, definition: usize) -> usize
    requires { Sourced inputs place.now × (definition < inputs + most_gates) }
    ensures { (result ≡ source_of inputs place.now definition) × (result < 65_536) }
{
    if definition < inputs {
        definition
    } else {
        inputs + usize::from(place[definition - inputs]).saturating_sub(1)
    }
}

// Pin p of a gate; 0 where it is not used.
fn pin(
    place: &[u16; area::MOST_GATES],
    sources: Sources,
    gate: usize,
    count: usize,
    p: usize,
) -> usize
    requires { LentPins sources place.now × (gate < most_gates) × (count ≤ most_pins) }
    ensures { (result ≡ get_or (map (source_of sources.entry.inputs place.now) (entries sources.entry.pins.now (most_pins * gate) count)) p 0)
        × (result < 65_536) }
{
    if p < count {
        source_of(
            place,
            sources.inputs,
            usize::from(sources.pins[area::MOST_PINS * gate + p]),
        )
    } else {
        0
    }
}

// The record of a gate of the text, at a place of the image. What is known of the words is asked here as of `write_image`, which takes a plain `Model`.
fn write_gate(
    model: &Model,
    place: &[u16; area::MOST_GATES],
    gate: usize,
    image: &mut [u8],
    at: usize,
)
    requires words { HeldWords model.now.words.now }
    requires placeable { LentGates model.now.sources place.now × (gate < most_gates) }
    requires gate_in_bounds { (gate < length model.now.heads.now) × (get_or model.now.heads.now gate 0 < model.now.words.now.count) }
    requires record_bytes_in_bounds { at + record_bytes ≤ length image.old }
    ensures { image.new ≡ sets image.old at (lent_record model.now place.now gate) }
{
    let count = usize::from(model.sources.counts[gate]);
    let head = names::entry(model.heads, gate);
    let from = head + statements::line_rest(model.words, head) + 1;
    let table = covers::table(model.words, from, count);
    let pins = [
        pin(place, model.sources, gate, count, 0),
        pin(place, model.sources, gate, count, 1),
        pin(place, model.sources, gate, count, 2),
        pin(place, model.sources, gate, count, 3),
    ];
    records::write_record(image, at, count, 0, [0; 8], table, pins);
}

// The records of all gates, in the order of the image.
fn write_gates(model: &Model, placement: &Placement, image: &mut [u8])
    requires words { HeldWords model.now.words.now }
    requires placeable { LentGates model.now.sources placement.now.place.now }
    requires ordered { LentOrder model.now placement.now }
    requires gates_in_bounds { record_bytes * length model.now.heads.now ≤ length image.old }
    ensures { image.new ≡ sets image.old 0 (joined (λ (q : ℕ).
        lent_record model.now placement.now.place.now (get_or placement.now.order.now q 0)) (length model.now.heads.now)) }
{
    for q in 0..model.heads.len() {
        let gate = usize::from(placement.order[q]);
        write_gate(model, placement.place, gate, image, image::RECORD_BYTES * q);
    }
}

// The output words, after the records.
fn write_outputs(model: &Model, place: &[u16; area::MOST_GATES], image: &mut [u8])
    requires sourced { Sourced model.now.sources.inputs place.now }
    requires outputs_in_bounds { OutputsIn model.now × (length model.now.heads.now ≤ most_gates) }
    requires outputs_in_bounds_2 { middle_bytes (length model.now.heads.now) (length model.now.outs.now) ≤ length image.old }
    ensures { image.new ≡ sets image.old (record_bytes * length model.now.heads.now)
        (joined (output_in model.now.sources.inputs place.now model.now.outs.now) (length model.now.outs.now)) }
{
    let base = image::RECORD_BYTES * model.heads.len();
    for k in 0..model.outs.len() {
        let source = source_of(place, model.sources.inputs, names::entry(model.outs, k));
        records::write_output(image, base + image::OUTPUT_BYTES * k, source);
    }
}

// The whole image, with an empty heading, over the first bytes of a slice that has room for it.
pub fn write_image(model: &Model, placement: &Placement, image: &mut [u8])
    requires words { HeldWords model.now.words.now }
    requires placeable { LentGates model.now.sources placement.now.place.now }
    requires ordered { LentOrder model.now placement.now }
    requires outputs_in_bounds { OutputsIn model.now }
    requires outputs_in_bounds_2 { image_length (length model.now.heads.now) (length model.now.outs.now) ≤ length image.old }
    ensures { image.new ≡ sets image.old 0 (image_of (lent_net model.now placement.now)) }
{
    let gates = model.heads.len();
    let outputs = model.outs.len();
    write_gates(model, placement, image);
    write_outputs(model, placement.place, image);
    let at = image::RECORD_BYTES * gates + image::OUTPUT_BYTES * outputs;
    records::write_trailer(image, at, model.sources.inputs, gates, outputs);
}
