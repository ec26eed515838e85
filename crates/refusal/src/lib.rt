// Refusals: what is judged of an image, an area, a text or a call's arguments, and why it is refused.
#![tactic(auto)]

ghost use Rattle.std.specs.Prelude.{◌≡◌, ◌<◌, ◌++◌, length, Some, codes, decimal};
ghost use Rattle.refusal.specs.Judgement.{number_of, lowest, word_judgement};

use std::fmt;

// The causes, by the numbers of document 01 and of document 02, cards 1, 4, 7 and 8.
#[derive(Clone, Copy, PartialEq, Eq)]
pub enum Cause {
    // Of the input: an image, and a call's arguments.
    WrongLength = 1,
    WrongFormat = 2,
    WrongCounts = 3,
    WrongBack = 4,
    GateShape = 5,
    GatePin = 6,
    GateFlip = 7,
    OutputSource = 8,
    SharedGate = 9,
    NotThere = 10,
    CallFlip = 11,
    WrongWeights = 12,
    // Of the state.
    AreaTooShort = 13,
    AreaRule = 14,
    // Of the input again: a list of patterns, and a slice too short for its counts.
    ListLength = 15,
    ListedPattern = 16,
    CountSlice = 17,
    // A text: a line outside the subset, a model that is none, a slice too short for its image.
    TextLine = 18,
    TextModel = 19,
    ImageSlice = 20,
    // A slice too short for the image of an area.
    WrittenSlice = 21,
    // A chance above 0.5, in an image or in a call.
    ChanceAboveHalf = 22,
    // More shared live gates than suppositions are made for.
    ManyShared = 23,
}

impl Cause {
    // Its number.
    pub fn number(self) -> u8
        ensures { result ≡ number_of self }
    {
        self as u8
    }
}

// A refusal: why, and at which place.
#[derive(Clone, Copy, PartialEq, Eq)]
pub struct Refusal {
    pub cause: Cause,
    pub place: u32,
}

// As it is printed: the number of the cause, a blank, and the place, both in decimals.
impl fmt::Display for Refusal {
    ghost output = { λ why. Some (decimal (number_of why.cause) ++ (codes " " ++ decimal why.place)) };

    fn fmt<W: fmt::Write>(&self, f: &mut fmt::Formatter<W>) -> fmt::Result {
        write!(f, "{} {}", self.cause.number(), self.place)
    }
}

// A list whose words must be at most `most`: the lowest place of a larger one is refused. A place fits its 32 bits.
pub fn judge_each(words: &[u32], most: u32, cause: Cause) -> Result<(), Refusal>
    requires { length words.now < 4_294_967_296 }
    ensures { result ≡ lowest (word_judgement words.now most cause) (length words.now) }
{
    for (i, word) in words.iter().enumerate() {
        if *word > most {
            return Err(Refusal {
                cause,
                place: i as u32,
            });
        }
    }
    Ok(())
}
