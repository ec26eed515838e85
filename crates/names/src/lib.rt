// Names, and the words of a text as slice parts.
#![tactic(auto)]

ghost use Rattle.std.specs.Prelude.{◌≡◌, false, ℕ, ◌<◌, ◌≤◌, length, get_or, drop};
ghost use Rattle.texts.specs.Words.{word_of};
ghost use Rattle.names.specs.Names.{same, name_byte, is_name, before, HasWord, name_of};

// Words of a text: where each starts, the number of its line, and how many of them there are.
// Two tables and not one of pairs: texts/specs/Words.antt `Tables` and `held` speak of both.
#[derive(Clone, Copy)]
pub struct Words<'a> {
    pub text: &'a [u8],
    pub starts: &'a [u16],
    pub lines: &'a [u16],
    pub count: usize,
}

impl<'a> Words<'a> {
    pub fn word(&self, k: usize) -> &'a [u8]
        requires { HasWord self.now k }
        ensures { result.now ≡ name_of self.now k }
    {
        word(self.text, entry(self.starts, k))
    }

    pub fn line(&self, k: usize) -> u32
        requires { k < length self.now.lines.now }
        ensures { result ≡ get_or self.now.lines.now k 0 }
    {
        line(self.lines, k)
    }
}

// The word that starts at a place.
pub fn word(text: &[u8], start: usize) -> &[u8]
    requires { start ≤ length text.now }
    ensures { result.now ≡ word_of (drop start text.now) }
{
    let end = texts::word_end(text, start);
    &text[start..end]
}

pub fn same(a: &[u8], b: &[u8]) -> bool
    ensures { result ≡ same a.now b.now }
{
    a == b
}

#[tactic(auto, unfolding(crate::specs::Names::name_byte))]
fn name_byte(b: u8) -> bool
    ensures { result ≡ name_byte b }
{
    b.is_ascii_graphic() && b != b'#' && b != b'\\'
}

pub const LONGEST_NAME: usize = 32;

#[tactic(auto, unfolding(crate::specs::Names::is_name))]
pub fn is_name(w: &[u8]) -> bool
    ensures { result ≡ is_name w.now }
{
    !w.is_empty() && w.len() <= LONGEST_NAME && w.iter().all(|b| name_byte(*b))
}

// An entry of a table of places.
pub fn entry(table: &[u16], k: usize) -> usize
    requires { k < length table.now }
    ensures { result ≡ get_or table.now k 0 }
{
    usize::from(table[k])
}

// An entry of a table of lines, as a place.
pub fn line(lines: &[u16], k: usize) -> u32
    requires { k < length lines.now }
    ensures { result ≡ get_or lines.now k 0 }
{
    u32::from(lines[k])
}

// A look at the bytes of a word, from the last of w to its first and then past it, before the word's end is searched: where the answer is false it is not w.
fn may_be(text: &[u8], start: usize, w: &[u8]) -> bool
    requires { start ≤ length text.now }
    ensures { result ≡ false → same (word_of (drop start text.now)) w.now ≡ false }
{
    if text.len() - start < w.len() {
        return false;
    }
    for i in (0..w.len()).rev() {
        if text[start + i] != w[i] {
            return false;
        }
    }
    let end = start + w.len();
    end == text.len() || !name_byte(text[end])
}

// Name k is w.
pub fn is_at(names: &Words, k: usize, w: &[u8]) -> bool
    requires { HasWord names.now k }
    ensures { result ≡ same (name_of names.now k) w.now }
{
    may_be(names.text, entry(names.starts, k), w) && same(names.word(k), w)
}

// How many of the names stand before the first that equals w; all of them if none does,
// and no Option: specs/Names.antt `before` and all numbers of names say it so.
pub fn find(names: &Words, w: &[u8]) -> usize
    requires { (names.now.count ≤ length names.now.starts.now) × ((k : ℕ) → k < names.now.count → get_or names.now.starts.now k 0 < length names.now.text.now) }
    ensures { result ≡ before names.now.text.now names.now.starts.now w.now 0 names.now.count }
{
    for k in 0..names.count {
        if is_at(names, k, w) {
            return k;
        }
    }
    names.count
}
