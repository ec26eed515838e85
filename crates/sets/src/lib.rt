// The figures of all sets of suppositions, on the words of an area: each shared gate is supposed right or wrong, and its readers see a failure of 0 or U.
//
// The walk goes on from each shared gate for both suppositions, so that what stands before it is worked out once; only gates with a mark are walked.
#![tactic(auto)]

ghost use Rattle.std.specs.Prelude.{◌≡◌, false, ℕ, ◌+◌, ◌≤◌, ◌<◌, length, get_or, replicate};
ghost use Rattle.suppose.specs.Suppose.{shared_from};
ghost use Rattle.area.specs.Layout as layout;
ghost use Rattle.area.specs.Rules.{NetSound, Workable};
ghost use Rattle.sets.specs.Sets.{most_shared, shared_of, shared_units, ReadersCounted};
ghost use Rattle.sets.specs.Branches.{Marks, NextMarked, Stands, sum_begun, SameBefore, WorkedTo, SharedAt};
ghost use Rattle.sets.specs.Branches.{ReadsUnmarked, Settled};

// How many of the gates have two readers or more; the first gate is source `inputs`.
// Not one function with `live::live_gates`: that sums `live_counted`, this lists by `shared_from`, and one for both would be a third, with a lemma for each.
pub fn shared_gates(readers: &[u32; area::MOST_SOURCES], inputs: usize, gates: usize) -> usize
    requires { inputs + gates ≤ layout.most_sources }
    ensures { result ≡ length (shared_from (λ s. get_or readers.now s 0) inputs gates) }
{
    readers[inputs..inputs + gates]
        .iter()
        .filter(|many| 1 < **many)
        .count()
}

// The lowest marked gate from `gate` on, where `after` is that of the gate after it.
fn lowest_from(marks: &[u32; area::MOST_SOURCES], source: usize, gate: usize, after: usize) -> usize
    requires { source < layout.most_sources }
    ensures { (0 < get_or marks.now source 0 → result ≡ gate) × (get_or marks.now source 0 ≡ 0 → result ≡ after) }
{
    if 0 < marks[source] { gate } else { after }
}

// From each gate on the lowest marked one; the number of gates, which `next` has everywhere, where there is none. The one just found is kept beside the table,
// from which it would have to be read back.
fn next_marked(
    next: &mut [usize; area::MOST_SOURCES],
    marks: &[u32; area::MOST_SOURCES],
    inputs: usize,
    gates: usize,
)
    requires { (inputs ≤ layout.most_inputs) × (gates ≤ layout.most_gates) × (next.old ≡ replicate layout.most_sources gates) }
    ensures { NextMarked marks.now next.new inputs gates 0 }
{
    let mut after = gates;
    for gate in (0..gates).rev() {
        after = lowest_from(marks, inputs + gate, gate, after);
        next[gate] = after;
    }
}

// Some suppositions of the walk: those on the first `met` shared gates, before `from`, are what the bits of `begun` say, and `product` is that over them.
#[derive(Clone, Copy)]
struct Branch {
    from: usize,
    product: u32,
    met: usize,
    begun: usize,
}

// The gates that are walked: their marks, and from each gate on the lowest marked one.
#[derive(Clone, Copy)]
struct Marked<'a> {
    marks: &'a [u32; area::MOST_SOURCES],
    next: &'a [usize; area::MOST_SOURCES],
}

impl Marked<'_> {
    // The marked gates from `from` on worked out in order, up to the first shared one, which is handed back; the number of gates where there is none, since
    // `WorkedTo` says of either that all before it are worked out.
    fn work_to_shared(&self, area: &mut [u32], from: usize) -> usize
        requires workable { Workable area.old × NextMarked self.now.marks.now self.now.next.now (layout.inputs area.old) (layout.gates area.old) 0 }
        requires from_bound { from ≤ layout.gates area.old }
        ensures worked_to { WorkedTo area.old self.now.marks.now area.new from result × (from ≤ result) × (result ≤ layout.gates area.old) }
        ensures shared_at { result < layout.gates area.old → SharedAt area.old self.now.marks.now area.new result }
    {
        let inputs = area::inputs(area);
        let count = area::gates(area);
        // The table links each marked gate to the next: no range has them, and an iterator of them would be longer.
        let mut gate = self.next[from];
        while gate < count {
            work::work_gate(area, gate);
            if 1 < self.marks[inputs + gate] {
                return gate;
            }
            gate = self.next[gate + 1];
        }
        gate
    }

    // The figures of all sets of a branch, added up. The words have what readers see of the gates before the branch.
    fn sum_from(&self, area: &mut [u32], branch: Branch) -> u64
        requires workable { Workable area.old × Marks area.old self.now.marks.now × (length (shared_of area.old) ≤ most_shared) }
        requires next_marked { NextMarked self.now.marks.now self.now.next.now (layout.inputs area.old) (layout.gates area.old) 0 }
        requires from_bound { (branch.from ≤ layout.gates area.old) × Stands area.old branch.begun branch.met branch.from branch.product }
        ensures value { result ≡ sum_begun area.old branch.begun branch.met }
        ensures same_before { SameBefore area.old self.now.marks.now area.new branch.from }
    {
        let gate = self.work_to_shared(area, branch.from);
        if gate == area::gates(area) {
            return u64::from(work::output_product(area, branch.product));
        }
        let own = area::figure(area, gate);
        area::store_figure(area, gate, own % 2);
        let as_right = Branch {
            from: gate + 1,
            product: figure::output_step(branch.product, own / 2),
            met: branch.met + 1,
            begun: branch.begun,
        };
        let right = self.sum_from(area, as_right);
        area::store_figure(area, gate, 2 * rounding::ONE + own % 2);
        let as_wrong = Branch {
            from: gate + 1,
            product: figure::output_step(branch.product, rounding::ONE - own / 2),
            met: branch.met + 1,
            begun: branch.begun + (1 << branch.met),
        };
        right + self.sum_from(area, as_wrong)
    }
}

// Whether a source is a gate that has a mark.
fn is_marked(marks: &[u32; area::MOST_SOURCES], inputs: usize, source: usize) -> bool
    requires { source < layout.most_sources }
    ensures { result ≡ false → inputs ≤ source → get_or marks.now source 0 ≡ 0 }
{
    inputs <= source && 0 < marks[source]
}

// Whether a used pin of a gate reads a marked one.
fn reads_marked(area: &[u32], marks: &[u32; area::MOST_SOURCES], gate: usize) -> bool
    requires { NetSound area.now × (gate < layout.gates area.now) }
    ensures { result ≡ false → ReadsUnmarked area.now marks.now gate }
{
    let inputs = area::inputs(area);
    for i in 0..area::pin_count(area, gate) {
        if is_marked(marks, inputs, area::pin(area, gate, i)) {
            return true;
        }
    }
    false
}

// A gate with one reader that reads no marked one depends on no shared gate: it is worked out once for all sets, and loses its mark.
fn settle_gate(area: &mut [u32], marks: &mut [u32; area::MOST_SOURCES], gate: usize)
    requires { Workable area.old × Marks area.old marks.old × (length marks.old ≡ layout.most_sources) × (gate < layout.gates area.old) }
    ensures { Settled area.old area.new marks.new }
{
    let source = area::inputs(area) + gate;
    if marks[source] != 1 {
        return;
    }
    if reads_marked(area, marks, gate) {
        return;
    }
    work::work_gate(area, gate);
    marks[source] = 0;
}

// All such gates, where it pays: with fewer than two shared gates the marks stay as they are.
fn settle(area: &mut [u32], marks: &mut [u32; area::MOST_SOURCES], shared: usize)
    requires { Workable area.old × Marks area.old marks.old × (length marks.old ≡ layout.most_sources) }
    ensures { Settled area.old area.new marks.new }
{
    if shared < 2 {
        return;
    }
    for gate in 0..area::gates(area) {
        settle_gate(area, marks, gate);
    }
}

// The shared reliability of the area for its pattern, whose readers are counted and so many gates of which are shared: all sets added, and a sum above U
// becomes U. The readers become the marks.
pub fn shared_reliability(
    area: &mut [u32],
    readers: &mut [u32; area::MOST_SOURCES],
    shared: usize,
) -> u32
    requires workable { Workable area.old × ReadersCounted area.old readers.old × (length readers.old ≡ layout.most_sources) }
    requires area_len_bound { length (shared_of area.old) ≤ most_shared }
    ensures { result ≡ shared_units area.old }
{
    settle(area, readers, shared);
    let gates = area::gates(area);
    let mut next = [gates; area::MOST_SOURCES];
    next_marked(&mut next, readers, area::inputs(area), gates);
    let marked = Marked {
        marks: readers,
        next: &next,
    };
    let all = Branch {
        from: 0,
        product: rounding::ONE,
        met: 0,
        begun: 0,
    };
    let sum = marked.sum_from(area, all);
    sum.min(rounding::UNITS_IN_ONE) as u32
}
