// The words of a text and their lines.
#![tactic(auto)]

ghost use Rattle.std.specs.Prelude.{◌≡◌, ℕ, ◌+◌, ◌<◌, ◌≤◌, true, false, List, length, get_or, drop};
ghost use Rattle.texts.specs.Words.{after, outside, step, in_word, begins, word_of, Tables, Read, Noted, most_bytes, most_words};

// The longest text, and the most words that it can have.
pub const MOST_BYTES: usize = 32_768;

pub const MOST_WORDS: usize = 16_384;

// Where a byte stands, by what was read before it: between words, in a word, in a comment, or after a joining backslash.
#[derive(Clone, Copy)]
pub enum Place {
    Gap,
    Inside,
    Comment,
    Joint,
}

// `here` is the line of a byte, `line` the first line of those joined to it.
#[derive(Clone, Copy)]
pub struct State {
    pub place: Place,
    pub here: usize,
    pub line: usize,
}

#[tactic(auto, unfolding(crate::specs::Words::after, crate::specs::Words::joins, crate::specs::Words::blank))]
fn after(b: u8, next: u8) -> Place
    ensures { result ≡ after b next }
{
    match b {
        b'\n' => Place::Gap,
        b'#' => Place::Comment,
        b'\\' if next == b'\n' => Place::Joint,
        b' ' | b'\t' | b'\r' => Place::Gap,
        _ => Place::Inside,
    }
}

// The state after the byte b outside a comment, with the byte after it.
fn outside(st: State, b: u8, next: u8) -> State
    requires { st.here < 65535 }
    ensures { result ≡ outside st.here st.line b next }
{
    let place = after(b, next);
    if b == b'\n' {
        State {
            place,
            here: st.here + 1,
            line: st.here + 1,
        }
    } else {
        State { place, ..st }
    }
}

// The state after the byte b, with the byte after it.
fn step(st: State, b: u8, next: u8) -> State
    requires { st.here < 65535 }
    ensures { result ≡ step st b next }
{
    match st.place {
        Place::Gap | Place::Inside => outside(st, b, next),
        Place::Comment if b == b'\n' => State {
            place: Place::Gap,
            here: st.here + 1,
            line: st.here + 1,
        },
        Place::Comment => st,
        Place::Joint if b == b'\n' => State {
            place: Place::Gap,
            here: st.here + 1,
            ..st
        },
        Place::Joint => State {
            place: Place::Gap,
            ..st
        },
    }
}

// The byte at a place; 0 past the end.
fn byte(text: &[u8], at: usize) -> u8
    ensures { result ≡ get_or text.now at 0 }
{
    text.get(at).copied().unwrap_or(0)
}

// The byte after a backslash. What stands after any other byte makes no difference to it, and is not read.
#[tactic(auto, unfolding(crate::specs::Words::after, crate::specs::Words::joins))]
fn ahead(text: &[u8], at: usize) -> u8
    requires { at < length text.now }
    ensures { after (get_or text.now at 0) result ≡ after (get_or text.now at 0) (get_or text.now (at + 1) 0) }
{
    if text[at] == b'\\' {
        byte(text, at + 1)
    } else {
        0
    }
}

// A byte belongs to a word where the place after it is inside one.
fn in_word(place: Place) -> bool
    ensures { result ≡ in_word place }
{
    matches!(place, Place::Inside)
}

// A word starts where the byte before belongs to none, and the byte belongs to one.
fn begins(place: Place, next: Place) -> bool
    ensures { result ≡ begins place next }
{
    matches!(place, Place::Gap) && in_word(next)
}

// The byte at a place belongs to a word, where no comment goes over it.
fn word_at(text: &[u8], at: usize) -> bool
    requires { at < length text.now }
    ensures { result ≡ in_word (after (get_or text.now at 0) (get_or text.now (at + 1) 0)) }
{
    in_word(after(text[at], ahead(text, at)))
}

// Where the word that starts at a place ends.
pub fn word_end(text: &[u8], start: usize) -> usize
    requires { start ≤ length text.now }
    ensures { result ≡ start + length (word_of (drop start text.now)) }
{
    for at in start..text.len() {
        if !word_at(text, at) {
            return at;
        }
    }
    text.len()
}

// How many words a text has, and the number of its last line.
#[derive(Clone, Copy)]
pub struct Found {
    pub count: usize,
    pub last: u32,
}

// Enters a word that starts at `at`, if one does, as word n. Two tables, as the definitions `Read` and `held` speak of them.
fn note(
    starts: &mut [u16; MOST_WORDS],
    lines: &mut [u16; MOST_WORDS],
    n: usize,
    begun: bool,
    at: usize,
    line: usize,
) -> usize
    requires n_lt_most_words { begun ≡ true → n < most_words }
    requires tables { Tables starts.old lines.old × (n ≤ most_words) × (at < most_bytes) × (line < 65536) }
    ensures { (text : List ℕ) → Noted text starts.old lines.old n begun at line starts.new lines.new result }
{
    if begun {
        starts[n] = at as u16;
        lines[n] = line as u16;
        return n + 1;
    }
    n
}

// The words of a text, entered in two tables.
pub fn read_words(
    text: &[u8],
    starts: &mut [u16; MOST_WORDS],
    lines: &mut [u16; MOST_WORDS],
) -> Found
    requires { Tables starts.old lines.old × (length text.now ≤ most_bytes) }
    ensures { Read text.now starts.new lines.new result.count result.last }
{
    let mut st = State {
        place: Place::Gap,
        here: 1,
        line: 1,
    };
    let mut n = 0;
    for at in 0..text.len() {
        let next = step(st, text[at], ahead(text, at));
        n = note(starts, lines, n, begins(st.place, next.place), at, st.line);
        st = next;
    }
    Found {
        count: n,
        last: st.here as u32,
    }
}
