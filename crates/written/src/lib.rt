// The image of a work area, written into bytes: no heading, and flips as never or as the chance that has just these units.
#![tactic(auto)]

ghost use Rattle.std.specs.Prelude.{◌≡◌, ◌+◌, ◌*◌, ◌<◌, ◌≤◌, length};
ghost use Rattle.std.proofs.lemmas.List.Edits.{sets};
ghost use Rattle.area.specs.Layout as layout;
ghost use Rattle.area.specs.Rules.{Workable};
ghost use Rattle.image.specs.Image.{record_bytes, middle_bytes};
ghost use Rattle.records.specs.Bytes.{contents_record, gates_bytes, outputs_bytes};
ghost use Rattle.calls.specs.Judgements.{write_image, judgement};
ghost use Rattle.written.specs.Image.{area_contents, area_image_length, area_image_over};

use refusal::{Cause, Refusal};

// The record of a gate.
fn write_gate(area: &[u32], gate: usize, image: &mut [u8])
    requires workable { Workable area.now × (gate < layout.gates area.now) }
    requires record_bytes_in_bounds { record_bytes * gate + record_bytes ≤ length image.old }
    ensures { image.new ≡ sets image.old (record_bytes * gate) (contents_record (area_contents area.now) gate) }
{
    let units = area::flip(area, gate);
    let count = area::pin_count(area, gate);
    let table = area::index(area::table(area, gate));
    let pins = [
        area::pin(area, gate, 0),
        area::pin(area, gate, 1),
        area::pin(area, gate, 2),
        area::pin(area, gate, 3),
    ];
    records::write_record(
        image,
        image::RECORD_BYTES * gate,
        count,
        flips::units_kind(units),
        flips::units_field(units),
        table,
        pins,
    );
}

fn write_gates(area: &[u32], image: &mut [u8])
    requires { Workable area.now × (record_bytes * layout.gates area.now ≤ length image.old) }
    ensures { image.new ≡ sets image.old 0 (gates_bytes (area_contents area.now)) }
{
    let gates = area::gates(area);
    for j in 0..gates {
        write_gate(area, j, image);
    }
}

// The output words, after the records.
fn write_outputs(area: &[u32], image: &mut [u8])
    requires { Workable area.now × (middle_bytes (layout.gates area.now) (layout.outputs area.now) ≤ length image.old) }
    ensures { image.new ≡ sets image.old (record_bytes * layout.gates area.now)
        (outputs_bytes (area_contents area.now)) }
{
    let base = image::RECORD_BYTES * area::gates(area);
    let outputs = area::outputs(area);
    for k in 0..outputs {
        let source = area::index(area::output(area, k));
        records::write_output(image, base + image::OUTPUT_BYTES * k, source);
    }
}

// How long the image of an area is.
pub fn image_length(area: &[u32]) -> usize
    requires { Workable area.now }
    ensures { (result ≡ area_image_length area.now) × (result < 65_536) }
{
    image::RECORD_BYTES * area::gates(area)
        + image::OUTPUT_BYTES * area::outputs(area)
        + image::TRAILER_BYTES
}

// The whole image, over the first bytes of a slice that has room for it.
pub fn write_image(area: &[u32], image: &mut [u8])
    requires { Workable area.now × (area_image_length area.now ≤ length image.old) }
    ensures { image.new ≡ area_image_over area.now image.old }
{
    write_gates(area, image);
    write_outputs(area, image);
    let gates = area::gates(area);
    let outputs = area::outputs(area);
    let at = image::RECORD_BYTES * gates + image::OUTPUT_BYTES * outputs;
    records::write_trailer(image, at, area::inputs(area), gates, outputs);
}

// Refusals 13 and 14 of the area, then 21: a slice shorter than the image.
pub fn judge_write(area: &[u32], room: usize) -> Result<(), Refusal>
    ensures { result ≡ judgement area.now (write_image room) }
{
    rules::judge(area)?;
    if room < image_length(area) {
        return Err(Refusal {
            cause: Cause::WrittenSlice,
            place: 0,
        });
    }
    Ok(())
}
