// How far figures can be from the exact ones, in half units (bound/specs/Sharp.antt): the netlist stands in the words of an area, and its kinds of
// flips in the image that it came from, since no word keeps them.
#![tactic(auto)]

ghost use Rattle.std.specs.Prelude.{◌≡◌, cond, [], ℕ, ◌+◌, ◌<◌, ◌≤◌, eqb, length, get_or, take, drop};
ghost use Rattle.netlist.specs.Live.{if_live, readers};
ghost use Rattle.bound.specs.Sharp.{further_gates, error_halves};
ghost use Rattle.area.specs.Layout as layout;
ghost use Rattle.area.specs.Rules.{NetSound};
ghost use Rattle.area.specs.Net.{net_of};
ghost use Rattle.image.specs.Image.{image_gates, middle, record_kind};
ghost use Rattle.image.specs.Refusals.{TrailerRight};
ghost use Rattle.image.specs.Loading.{image_kinds};

// The first gate among the sources that a fold or a product takes is exact, and each later one may cost half a unit: how many of the `many` sources from
// `start` on are later ones.
fn further_gates(area: &[u32], start: usize, many: usize, inputs: usize) -> u32
    requires { (start + many ≤ length area.now) × (many ≤ layout.most_outputs) }
    ensures { (result ≡ further_gates inputs (take many (drop start area.now))) × (result ≤ many) }
{
    // Tried as a filter of the part that counts: `bench_error_of_image` took 1.2 times as long, since most parts are two words long.
    let mut gates: u32 = 0;
    for i in 0..many {
        if inputs <= area::index(area[start + i]) {
            gates += 1;
        }
    }
    gates.saturating_sub(1)
}

// What a live gate may cost: its chance is rounded, and so is its step, unless it never flips; then its fold.
fn gate_halves(area: &[u32], gate: usize, kind: u8) -> u32
    requires { NetSound area.now × (gate < layout.gates area.now) }
    ensures value { result ≡ cond (eqb kind 0) 0 2 + further_gates (layout.inputs area.now) (layout.used_pins area.now gate) }
    ensures upper_bound { result ≤ 2 + layout.most_pins }
{
    let pins = further_gates(
        area,
        area::pins_index(gate),
        area::pin_count(area, gate),
        area::inputs(area),
    );
    if kind == 0 {
        return pins;
    }
    2 + pins
}

// A dead gate costs nothing.
fn charged(area: &[u32], image: &[u8], readers: u32, gate: usize) -> u32
    requires net_sound { NetSound area.now × (gate < layout.gates area.now) }
    requires trailer_right { TrailerRight image.now × (layout.gates area.now ≡ image_gates image.now) }
    ensures value { result ≡ if_live readers (cond (eqb (record_kind (middle image.now) gate) 0) 0 2
        + further_gates (layout.inputs area.now) (layout.used_pins area.now gate)) }
    ensures upper_bound { result ≤ 2 + layout.most_pins }
{
    if readers < 1 {
        return 0;
    }
    gate_halves(area, gate, image::gate_kind(image, gate))
}

// The whole netlist: its gates, and the product over its outputs.
pub fn error_halves(area: &[u32], image: &[u8]) -> u32
    requires { NetSound area.now × TrailerRight image.now × (layout.gates area.now ≡ image_gates image.now) }
    ensures value { result ≡ error_halves (net_of area.now (image_kinds image.now) []) }
    ensures upper_bound { result ≤ 6_208 }
{
    let inputs = area::inputs(area);
    let count = area::gates(area);
    let readers = live::count_readers(area);
    let mut halves = further_gates(
        area,
        area::outputs_index(count),
        area::outputs(area),
        inputs,
    );
    for gate in 0..count {
        halves += charged(area, image, readers[inputs + gate], gate);
    }
    halves
}
