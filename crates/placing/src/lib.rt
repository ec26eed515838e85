// The order in which the gates of a text are placed.
#![tactic(auto)]

ghost use Rattle.std.specs.Prelude.{◌≡◌, ℕ, ◌+◌, ◌-◌, ◌*◌, ◌<◌, ◌≤◌, length, get_or, MatchOption};
ghost use Rattle.area.specs.Layout.{most_pins, most_inputs, most_gates};
ghost use Rattle.placing.specs.Placing.{placed_source, all_placed, ready, passed, entries, lent_sources, left, Kept, LentTables, Placed};

// Entries of the table of sources: as many for each gate as it may have.
pub const PIN_ENTRIES: usize = area::MOST_PINS * area::MOST_GATES;

// The sources of the gates of a text: as many entries for each gate as it may have, of which its count are used. Below `inputs` a source is an input.
#[derive(Clone, Copy)]
pub struct Sources<'a> {
    pub inputs: usize,
    pub pins: &'a [u16; PIN_ENTRIES],
    pub counts: &'a [u16; area::MOST_GATES],
}

// A source is an input or a placed gate. In `place` 0 is a gate not placed, and no Option: specs/Placing.antt `placed_source`, `ready` and `Kept` say it so.
fn placed_source(place: &[u16; area::MOST_GATES], inputs: usize, source: usize) -> bool
    requires { (length place.now ≡ most_gates) × (source < inputs + most_gates) }
    ensures { result ≡ placed_source inputs place.now source }
{
    source < inputs || place[source - inputs] != 0
}

impl<'a> Sources<'a> {
    // The `many` sources from entry `from` on are placed.
    fn all_placed(self, place: &[u16; area::MOST_GATES], from: usize, many: usize) -> bool
        requires { (length place.now ≡ most_gates) × (self.inputs ≤ most_inputs) × (from + many ≤ most_pins * most_gates)
            × ((k : ℕ) → get_or self.pins.now k 0 < self.inputs + most_gates) }
        ensures { result ≡ all_placed self.entry.inputs place.now (entries self.entry.pins.now from many) }
    {
        for i in from..from + many {
            if !placed_source(place, self.inputs, usize::from(self.pins[i])) {
                return false;
            }
        }
        true
    }

    fn ready(self, place: &[u16; area::MOST_GATES], gate: usize) -> bool
        requires { (gate < most_gates) × (length place.now ≡ most_gates) × LentTables self }
        ensures { result ≡ ready (lent_sources self.entry) self.entry.inputs place.now gate }
    {
        place[gate] == 0
            && self.all_placed(
                place,
                area::MOST_PINS * gate,
                usize::from(self.counts[gate]),
            )
    }

    // The earliest gate that is ready.
    fn next(self, place: &[u16; area::MOST_GATES], gates: usize) -> Option<usize>
        requires { (gates ≤ most_gates) × (length place.now ≡ most_gates) × LentTables self }
        ensures { MatchOption result
            (passed (lent_sources self.entry) self.entry.inputs place.now 0 gates ≡ gates)
            (λ gate. (gate ≡ passed (lent_sources self.entry) self.entry.inputs place.now 0 gates) × (gate < gates)) }
    {
        for gate in 0..gates {
            if self.ready(place, gate) {
                return Some(gate);
            }
        }
        None
    }
}

// Places gates while one is ready; how many are placed.
pub fn place_all(
    place: &mut [u16; area::MOST_GATES],
    order: &mut [u16; area::MOST_GATES],
    sources: Sources,
    gates: usize,
) -> usize
    requires { (gates ≤ most_gates) × LentTables sources
        × Kept (lent_sources sources) sources.inputs gates 0 place.old order.old }
    ensures { Placed (lent_sources sources.entry) sources.entry.inputs gates place.old result place.new order.new }
{
    let mut q = 0;
    while let Some(gate) = sources.next(place, gates) {
        order[q] = gate as u16;
        q += 1;
        place[gate] = q as u16;
    }
    q
}
