// The reliability under every pattern, entry q for pattern q: the walk of the call "average", whose rows are stored here and not added up.
#![tactic(auto)]

ghost use Rattle.std.specs.Prelude.{◌≡◌, ℕ, List, [], ◌∷◌, ◌+◌, ◌*◌, ◌%◌, ◌^◌, ◌<◌, ◌≤◌, length};
ghost use Rattle.area.specs.Layout as layout;
ghost use Rattle.area.specs.Rules.{Workable};
ghost use Rattle.patterns.specs.Known.{Known, EachReliability};

use average::RowSink;

// Where the reliabilities go.
#[derive(Drop)]
struct Figures<'a> {
    figures: &'a mut [u32],
}

impl RowSink for Figures<'_> {
    ghost Done = { λ s ws q. Known ws s.figures.now q };

    ghost fixed = { λ s. s.figures.ghost_name ∷ [] };

    // Patterns past the last.
    fn skips(&self, area: &[u32], start: usize, many: usize) -> bool {
        average::pattern_count(area::inputs(area)) <= start
    }

    fn take(&mut self, area: &[u32], start: usize, row: [u32; rows::LANES]) {
        self.figures[start..start + rows::LANES].copy_from_slice(&row);
    }
}

// The reliability under every pattern, block by block. The area is only read: its words of figures may be those of any pattern. Entries past
// the last pattern may be written too.
pub fn each_reliability(figures: &mut [u32], area: &[u32])
    requires { Workable area.now × (layout.most_patterns ≤ length figures.old) }
    ensures { EachReliability area.now figures.new }
{
    average::walk_patterns(&mut Figures { figures }, area);
}
