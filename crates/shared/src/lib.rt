// The call "shared reliability": the reliability of an image whose gates may be shared, under one pattern. No area is lent; the netlist stands in words of
// the call's own.
#![tactic(auto)]

ghost use Rattle.std.specs.Prelude.{◌≡◌, ◌%◌, ◌^◌, ◌≤◌};
ghost use Rattle.area.specs.Layout as layout;
ghost use Rattle.area.specs.Rules.{Workable};
ghost use Rattle.refusal.specs.Judgement.{answer};
ghost use Rattle.sets.specs.Sets.{units_net, shared_units};
ghost use Rattle.shared.specs.Shared.{many_shared, shared_image_judgement, image_shared};

use refusal::{Cause, Refusal};

// The most shared live gates: 256 sets of suppositions.
const MOST_SHARED: usize = 8;

// The bits of a pattern that count, one for each input.
fn low_bits(pattern: u32, inputs: usize) -> u32
    requires { inputs ≤ layout.most_inputs }
    ensures { result ≡ pattern % 2 ^ inputs }
{
    pattern % (1 << inputs)
}

// Refusal 23 of a netlist that stands in words, else its shared reliability for the pattern that they hold.
fn read_words(words: &mut [u32]) -> Result<u32, Refusal>
    requires { Workable words.old }
    ensures { result ≡ answer (many_shared (units_net words.old)) (shared_units words.old) }
{
    let mut readers = live::count_readers(words);
    let shared = sets::shared_gates(&readers, area::inputs(words), area::gates(words));
    if shared > MOST_SHARED {
        return Err(Refusal {
            cause: Cause::ManyShared,
            place: 0,
        });
    }
    Ok(sets::shared_reliability(words, &mut readers, shared))
}

// The shared reliability of an image under a pattern, of which only the low bits count, one for each input.
pub fn shared_reliability(image: &[u8], pattern: u32) -> Result<u32, Refusal>
    ensures { result ≡ answer (shared_image_judgement image.now) (image_shared image.now pattern) }
{
    let mut words = [0u32; area::MOST_WORDS];
    image::load(image, &mut words)?;
    let low = low_bits(pattern, area::inputs(&words));
    words[area::PATTERN] = low;
    read_words(&mut words)
}
