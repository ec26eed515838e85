// The statements of a text: what a line is, and whether it fits (refusal 18).
#![tactic(auto)]

ghost use Rattle.std.specs.Prelude.{◌≡◌, ◌+◌, ◌-◌, ◌<◌, ◌≤◌, ◌∷◌, [], length, get_or};
ghost use Rattle.std.specs.Iterator.{at_most};
ghost use Rattle.statements.specs.Walk.{CanWalk, NextLine};
ghost use Rattle.statements.specs.Lines.{Lent, alike, lines_of};
ghost use Rattle.statements.specs.Fit.{keyword_of, all_names, value_of, row_byte, is_row, after_model, after_list, after_gate, after_end};
ghost use Rattle.statements.specs.Fit.{after_value, after_line, after_first, after_heading, after_cover, fit, fault};
ghost use Rattle.texts.specs.Words.{held};
ghost use Rattle.names.specs.Names.{HasWord, name_of, is_name};

use names::Words;
use refusal::{Cause, Refusal};
use std::marker::Model;

#[derive(Clone, Copy, PartialEq, Eq)]
pub enum Keyword {
    Model,
    Inputs,
    Outputs,
    Names,
    End,
    Other,
}

// What may follow: before `.model`; inputs, outputs and gates; a cover's lines and gates; nothing. A cover has no ending before its first line.
#[derive(Clone, Copy)]
pub enum Phase {
    Before,
    Heading,
    Cover { width: usize, ending: Option<bool> },
    Ended,
}

pub fn keyword_of(w: &[u8]) -> Keyword
    ensures { result ≡ keyword_of w.now }
{
    if names::same(w, b".model") {
        return Keyword::Model;
    }
    if names::same(w, b".inputs") {
        return Keyword::Inputs;
    }
    if names::same(w, b".outputs") {
        return Keyword::Outputs;
    }
    if names::same(w, b".names") {
        return Keyword::Names;
    }
    if names::same(w, b".end") {
        return Keyword::End;
    }
    Keyword::Other
}

// How many words after word k of `count` stand in its line.
fn rest_of(numbers: &[u16], k: usize, count: usize) -> usize
    requires { (k < count) × (count ≤ length numbers.now) }
    ensures value { result ≡ alike numbers.now (get_or numbers.now k 0) (k + 1) (count - (k + 1)) }
    ensures within { k + result < count }
{
    for i in k + 1..count {
        if numbers[i] != numbers[k] {
            return i - (k + 1);
        }
    }
    count - (k + 1)
}

pub fn line_rest(words: &Words, k: usize) -> usize
    requires { (k < words.now.count) × (words.now.count ≤ length words.now.lines.now) }
    ensures { result ≡ alike words.now.lines.now (get_or words.now.lines.now k 0) (k + 1) (words.now.count - (k + 1)) }
{
    rest_of(words.lines, k, words.count)
}

// A line by its first word, and how many words follow that one in it.
#[derive(Clone, Copy, Drop)]
pub struct Line {
    pub first: usize,
    pub rest: usize,
}

// The lines of the words from word `at` on.
#[derive(Drop)]
pub struct LineWalk<'a> {
    pub numbers: &'a [u16],
    pub count: usize,
    pub at: usize,
}

impl<'a> Iterator for LineWalk<'a> {
    type Item = Line;

    ghost can_next = { CanWalk };

    ghost next_gives = { NextLine };

    ghost remaining = { λ s. at_most (s.count - s.at) };

    fn next(&mut self) -> Option<Line> {
        if self.at >= self.count {
            return None;
        }
        let first = self.at;
        let rest = rest_of(self.numbers, first, self.count);
        self.at = first + rest + 1;
        Some(Line { first, rest })
    }
}

pub fn lines_from<'a>(words: &Words<'a>, at: usize) -> LineWalk<'a>
    ensures { (result.numbers ≡ words.now.lines) × (result.count ≡ words.now.count) × (result.at ≡ at) }
{
    LineWalk {
        numbers: words.lines,
        count: words.count,
        at,
    }
}

// What a cover line ends in: 0 or 1, or neither.
fn value_of(w: &[u8]) -> Option<bool>
    ensures { result ≡ value_of w.now }
{
    if names::same(w, b"0") {
        return Some(false);
    }
    if names::same(w, b"1") {
        return Some(true);
    }
    None
}

pub fn value_at(words: &Words, k: usize) -> Option<bool>
    requires { HasWord words.now k }
    ensures { result ≡ value_of (name_of words.now k) }
{
    value_of(words.word(k))
}

#[tactic(auto, unfolding(crate::specs::Fit::row_byte))]
fn row_byte(b: u8) -> bool
    ensures { result ≡ row_byte b }
{
    matches!(b, b'0' | b'1' | b'-')
}

fn is_row(w: &[u8], width: usize) -> bool
    ensures { result ≡ is_row width w.now }
{
    w.len() == width && w.iter().all(|b| row_byte(*b))
}

#[tactic(auto, unfolding(crate::specs::Fit::after_end))]
fn after_end(many: usize) -> Option<Phase>
    ensures { result ≡ after_end many }
{
    if many == 0 { Some(Phase::Ended) } else { None }
}

// A cover has one ending, that of its first line.
fn after_value(width: usize, ending: Option<bool>, value: Option<bool>) -> Option<Phase>
    ensures { result ≡ after_value width ending value }
{
    let value = value?;
    match ending {
        Some(first) if first != value => None,
        _ => Some(Phase::Cover {
            width,
            ending: Some(value),
        }),
    }
}

// The words of a line after its first: `many` of them, from word `from` on. A clause sees their bytes.
#[derive(Drop)]
struct Part<'a> {
    words: &'a Words<'a>,
    from: usize,
    many: usize,
}

impl<'a> Model for Part<'a> {
    ghost use Rattle.std.specs.Prelude.{ℕ, List};
    ghost use Rattle.statements.specs.Part.{bytes_in, InText};

    ghost Value = { List (List ℕ) };

    ghost view = { bytes_in };

    ghost invariant = { InText };
}

// A gate's line: its sources, and its own name.
const MOST_NAMES: usize = area::MOST_PINS + 1;

// What may follow a line that fits, kind by kind. `first` is its first word.
impl<'a> Part<'a> {
    fn count(&self) -> usize
        ensures { result ≡ length self.now }
    {
        self.many
    }

    fn word(&self, i: usize) -> &'a [u8]
        requires { i < length self.now }
        ensures { result.now ≡ get_or self.now i [] }
    {
        self.words.word(self.from + i)
    }

    fn are_names(&self) -> bool
        ensures { result ≡ all_names self.now }
    {
        for i in 0..self.count() {
            if !names::is_name(self.word(i)) {
                return false;
            }
        }
        true
    }

    #[tactic(auto, unfolding(crate::specs::Fit::after_model))]
    fn after_model(&self) -> Option<Phase>
        ensures { result ≡ after_model self.now }
    {
        if self.count() == 1 && self.are_names() {
            Some(Phase::Heading)
        } else {
            None
        }
    }

    #[tactic(auto, unfolding(crate::specs::Fit::after_list))]
    fn after_list(&self) -> Option<Phase>
        ensures { result ≡ after_list self.now }
    {
        if self.are_names() {
            Some(Phase::Heading)
        } else {
            None
        }
    }

    #[tactic(auto, unfolding(crate::specs::Fit::after_gate))]
    fn after_gate(&self) -> Option<Phase>
        ensures { result ≡ after_gate self.now }
    {
        let many = self.count();
        if 1 <= many && many <= MOST_NAMES && self.are_names() {
            Some(Phase::Cover {
                width: many - 1,
                ending: None,
            })
        } else {
            None
        }
    }

    // A cover line.
    fn after_line(&self, first: &[u8], width: usize, ending: Option<bool>) -> Option<Phase>
        ensures { result ≡ after_line width ending (first.now ∷ self.now) }
    {
        match self.count() {
            0 if width == 0 => after_value(width, ending, value_of(first)),
            1 if width != 0 && is_row(first, width) => after_value(
                width,
                ending,
                value_of(self.word(0)),
            ),
            _ => None,
        }
    }

    fn after_first(&self, key: Keyword) -> Option<Phase>
        ensures { result ≡ after_first key self.now }
    {
        match key {
            Keyword::Model => self.after_model(),
            _ => None,
        }
    }

    fn after_heading(&self, key: Keyword) -> Option<Phase>
        ensures { result ≡ after_heading key self.now }
    {
        match key {
            Keyword::Inputs | Keyword::Outputs => self.after_list(),
            Keyword::Names => self.after_gate(),
            Keyword::End => after_end(self.count()),
            _ => None,
        }
    }

    // A line where a cover is open.
    fn after_cover(
        &self,
        key: Keyword,
        first: &[u8],
        width: usize,
        ending: Option<bool>,
    ) -> Option<Phase>
        ensures { result ≡ after_cover width ending key first.now self.now }
    {
        match key {
            Keyword::Names => self.after_gate(),
            Keyword::End => after_end(self.count()),
            Keyword::Other => self.after_line(first, width, ending),
            _ => None,
        }
    }

    // Any line, by its first word.
    fn fit(&self, phase: Phase, first: &[u8]) -> Option<Phase>
        ensures { result ≡ fit phase (first.now ∷ self.now) }
    {
        let key = keyword_of(first);
        match phase {
            Phase::Before => self.after_first(key),
            Phase::Heading => self.after_heading(key),
            Phase::Cover { width, ending } => self.after_cover(key, first, width, ending),
            Phase::Ended => None,
        }
    }
}

// Refusal 18 of the words' lines: the first that does not fit; `last` where only `.end` is missing.
pub fn fault(words: &Words, last: u32) -> Result<(), Refusal>
    requires { Lent words.now }
    ensures { result ≡ fault Phase.Before (lines_of (held words.now.text.now words.now.starts.now words.now.lines.now 0 words.now.count)) last }
{
    let mut phase = Phase::Before;
    for line in lines_from(words, 0) {
        let part = Part {
            words: &*words,
            from: line.first + 1,
            many: line.rest,
        };
        let Some(next) = part.fit(phase, words.word(line.first)) else {
            return Err(Refusal {
                cause: Cause::TextLine,
                place: words.line(line.first),
            });
        };
        phase = next;
    }
    match phase {
        Phase::Ended => Ok(()),
        _ => Err(Refusal {
            cause: Cause::TextLine,
            place: last,
        }),
    }
}
