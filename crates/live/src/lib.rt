// Live readers, counted on the words of an area: the number of live gates, their raw flip sum, and refusal 9.
//
// `readers` has an entry for each source, inputs too.
#![tactic(auto)]

ghost use Rattle.std.specs.Prelude.{◌≡◌, [], ℕ, ◌+◌, ◌<◌, ◌≤◌, length, get_or, take, drop};
ghost use Rattle.netlist.specs.Live.{if_live, readers};
ghost use Rattle.area.specs.Layout as layout;
ghost use Rattle.area.specs.Rules.{NetSound};
ghost use Rattle.area.specs.Net.{net_of};
ghost use Rattle.area.specs.Sum.{flip_sum};
ghost use Rattle.live.specs.Counted.{Counts, Added, gate_reads, live_counted};
ghost use Rattle.live.specs.Shared.{shared_by};

use refusal::{Cause, Refusal};

// One reader more for each of the `many` sources that stand in the area from `start` on.
fn add_reads(readers: &mut [u32; area::MOST_SOURCES], area: &[u32], start: usize, many: usize)
    requires many_in_bounds { start + many ≤ length area.now }
    requires by_index { (i : ℕ) → i < many → get_or area.now (start + i) 0 < layout.most_sources }
    requires counts { Counts readers.old × (many ≤ layout.most_outputs) }
    ensures { Added readers.old (take many (drop start area.now)) readers.new }
{
    // Tried over the part of the slice: `bench::open` took 1.04 times the instructions, since most parts are two words long.
    for i in 0..many {
        let source = area::index(area[start + i]);
        readers[source] += 1;
    }
}

// A gate that has a reader reads by each of its used pins, and its flip is handed back; a dead gate reads nothing, and 0 is.
fn add_gate(readers: &mut [u32; area::MOST_SOURCES], area: &[u32], gate: usize) -> u32
    requires net_sound { NetSound area.now × (gate < layout.gates area.now) }
    requires counts { Counts readers.old }
    ensures value { result ≡ if_live (get_or readers.old (layout.inputs area.now + gate) 0) (layout.flip area.now gate) }
    ensures added { Added readers.old (gate_reads area.now readers.old gate) readers.new }
{
    let source = area::inputs(area) + gate;
    let flip = area::flip(area, gate);
    if readers[source] < 1 {
        return 0;
    }
    add_reads(
        readers,
        area,
        area::pins_index(gate),
        area::pin_count(area, gate),
    );
    flip
}

// The live readers of every source, and the raw flip sum.
#[derive(Clone, Copy)]
pub struct LiveCounts {
    pub readers: [u32; area::MOST_SOURCES],
    pub sum: u64,
}

// A gate's readers come after it, so the last gate is looked at first, and by then its readers are all counted.
pub fn count_live(area: &[u32]) -> LiveCounts
    requires { NetSound area.now }
    ensures by_index { (s : ℕ) → get_or result.readers s 0 ≡ readers (net_of area.now [] []) s }
    ensures sum_value { (result.sum ≡ flip_sum area.now) × (length result.readers ≡ layout.most_sources) }
{
    let gates = area::gates(area);
    let mut readers = [0u32; area::MOST_SOURCES];
    add_reads(
        &mut readers,
        area,
        area::outputs_index(gates),
        area::outputs(area),
    );
    let mut sum = 0u64;
    for gate in (0..gates).rev() {
        sum += u64::from(add_gate(&mut readers, area, gate));
    }
    LiveCounts { readers, sum }
}

// The live readers alone.
pub fn count_readers(area: &[u32]) -> [u32; area::MOST_SOURCES]
    requires { NetSound area.now }
    ensures { (s : ℕ) → get_or result s 0 ≡ readers (net_of area.now [] []) s }
{
    count_live(area).readers
}

// How many of the gates have a reader; the first gate is source `inputs`.
pub fn live_gates(readers: &[u32; area::MOST_SOURCES], inputs: usize, gates: usize) -> u32
    requires { inputs + gates ≤ layout.most_sources }
    ensures { result ≡ live_counted readers.now inputs gates }
{
    // Tried as a filter of the part that counts: `bench::open` took 1.03 times the instructions and 1.06 times as long.
    let mut live = 0;
    for gate in 0..gates {
        if 0 < readers[inputs + gate] {
            live += 1;
        }
    }
    live
}

// A raw flip sum after the flip of one gate, whose source has so many readers, has gone from `old` to `new`.
pub fn changed_sum(sum: u64, readers: u32, old: u32, new: u32) -> u64
    requires { (if_live readers old ≤ sum) × (sum + new < 18_446_744_073_709_551_616) }
    ensures { result + if_live readers old ≡ sum + if_live readers new }
{
    if readers < 1 {
        return sum;
    }
    sum - u64::from(old) + u64::from(new)
}

// Refusal 9: the lowest gate with two readers or more.
pub fn judge_shared(readers: &[u32], inputs: usize, gates: usize) -> Result<(), Refusal>
    requires { (inputs + gates ≤ length readers.now) × (gates ≤ layout.most_gates) }
    ensures { result ≡ shared_by (λ s. get_or readers.now s 0) inputs gates }
{
    let end = inputs + gates;
    refusal::judge_each(&readers[inputs..end], 1, Cause::SharedGate)
}
