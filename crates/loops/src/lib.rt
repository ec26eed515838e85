// Gates that depend on themselves.
#![tactic(auto)]

ghost use Rattle.std.specs.Prelude.{◌≡◌, [], ◌∷◌, ℕ, ◌+◌, ◌-◌, ◌*◌, ◌<◌, ◌≤◌, length, get_or};
ghost use Rattle.area.specs.Layout.{most_pins, most_inputs, most_gates};
ghost use Rattle.refusal.specs.Judgement.{Fine};
ghost use Rattle.placing.specs.Placing.{lent_sources, LentTables, Reads, Kept, Placed, loop_fault};
ghost use Rattle.loops.specs.Marks.{HasRoom, MarkedBy, Taken, Clear, Answers};

use placing::Sources;
use refusal::{Cause, Refusal};

// Each gate is put on the pile once, and the one that the search begins with once more.
const PILE: usize = area::MOST_GATES + 1;

// The gates that a search has seen, and on a pile those whose sources are still to be seen.
// Both arrays are lent: with them in the struct, and so the top of the pile in memory, `read_blif` took 1.07 times as long on gates before a loop.
// Marks are numbers and no bools: they begin as the places of gates, and specs/Marks.antt `Room`, `Marked`, `Clear` say them so.
#[derive(Drop)]
struct Search<'a> {
    marks: &'a mut [u16; area::MOST_GATES],
    pile: &'a mut [u16; PILE],
    top: usize,
}

impl Search<'_> {
    // Marks a source that is a gate not yet marked, and puts it on the pile.
    fn mark_source(&mut self, inputs: usize, source: usize)
        requires { HasRoom self.old × (inputs ≤ most_inputs) × (source < inputs + most_gates) }
        ensures { MarkedBy inputs (source ∷ []) self.old self.new }
    {
        if source < inputs {
            return;
        }
        let gate = source - inputs;
        if self.marks[gate] == 0 {
            self.marks[gate] = 1;
            self.pile[self.top] = gate as u16;
            self.top += 1;
        }
    }

    // Marks what a gate reads.
    fn mark_gate(&mut self, sources: Sources, gate: usize)
        requires { HasRoom self.old × (gate < most_gates) × LentTables sources }
        ensures { MarkedBy sources.entry.inputs (lent_sources sources.entry gate) self.old self.new }
    {
        let from = area::MOST_PINS * gate;
        let many = usize::from(sources.counts[gate]);
        for i in from..from + many {
            self.mark_source(sources.inputs, usize::from(sources.pins[i]));
        }
    }

    // The gate on top of the pile, which is taken off.
    fn next(&mut self) -> Option<usize>
        requires { HasRoom self.old }
        ensures { Taken self.old result self.new }
    {
        if self.top == 0 {
            return None;
        }
        self.top -= 1;
        Some(usize::from(self.pile[self.top]))
    }
}

// Whether a gate depends on itself. Those with an entry in `clear` are known not to, so no way back leads through them.
fn on_itself(clear: &[u16; area::MOST_GATES], sources: Sources, gates: usize, gate: usize) -> bool
    requires gate_lt_gates { (gate < gates) × (gates ≤ most_gates) × LentTables sources × ((j i : ℕ) → j < gates
        → Reads (lent_sources sources) sources.inputs j i → i < gates) }
    requires clear_len { (length clear.now ≡ most_gates) × Clear (lent_sources sources) sources.inputs clear.now }
    ensures { Answers (lent_sources sources.entry) sources.entry.inputs gate result }
{
    if clear[gate] != 0 {
        return false;
    }
    let mut marks = *clear;
    let mut pile = [0; PILE];
    pile[0] = gate as u16;
    let mut search = Search {
        marks: &mut marks,
        pile: &mut pile,
        top: 1,
    };
    while let Some(taken) = search.next() {
        search.mark_gate(sources, taken);
    }
    search.marks[gate] != 0
}

// The first gate that depends on itself is refused at its line.
fn first_loop(
    place: &[u16; area::MOST_GATES],
    sources: Sources,
    gates: usize,
    numbers: &[u16],
) -> Result<(), Refusal>
    requires gates_le_most_gates { (gates ≤ most_gates) × (sources.inputs + gates ≤ length numbers.now) × LentTables sources }
    requires by_index { (j i : ℕ) → j < gates → Reads (lent_sources sources) sources.inputs j i → i < gates }
    requires place_len { (length place.now ≡ most_gates) × Clear (lent_sources sources) sources.inputs place.now }
    ensures { result ≡ loop_fault (lent_sources sources.entry) sources.entry.inputs gates (λ (j : ℕ). get_or numbers.now (sources.entry.inputs + j) 0) }
{
    let mut clear = *place;
    for j in 0..gates {
        if on_itself(&clear, sources, gates, j) {
            return Err(Refusal {
                cause: Cause::TextModel,
                place: names::line(numbers, sources.inputs + j),
            });
        }
        clear[j] = 1;
    }
    Ok(())
}

// Places the gates. Where some are left, one of them depends on itself.
pub fn order_gates(
    place: &mut [u16; area::MOST_GATES],
    order: &mut [u16; area::MOST_GATES],
    sources: Sources,
    gates: usize,
    numbers: &[u16],
) -> Result<(), Refusal>
    requires gates_le_most_gates { (gates ≤ most_gates) × (sources.inputs + gates ≤ length numbers.now) × LentTables sources }
    requires by_index { (j i : ℕ) → j < gates → Reads (lent_sources sources) sources.inputs j i → i < gates }
    requires kept { Kept (lent_sources sources) sources.inputs gates 0 place.old order.old }
    ensures value { result ≡ loop_fault (lent_sources sources.entry) sources.entry.inputs gates (λ (j : ℕ). get_or numbers.now (sources.entry.inputs + j) 0) }
    ensures placed { result ≡ Fine → Placed (lent_sources sources.entry) sources.entry.inputs gates place.old gates place.new
        order.new }
{
    let placed = placing::place_all(place, order, sources, gates);
    if placed == gates {
        return Ok(());
    }
    first_loop(place, sources, gates, numbers)
}
