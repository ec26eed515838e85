// Reading BLIF: a text, and the image that is written of it.
#![tactic(auto)]

ghost use Rattle.std.specs.Prelude.{◌≡◌, ◌+◌, ◌<◌, length};
ghost use Rattle.refusal.specs.Judgement.{unless_refused, answer};
ghost use Rattle.model.specs.Tables.{lines_in};
ghost use Rattle.blif.specs.Reading.{text_lines, model_length, room_fault, lines_refusal, blif_refusal, image_over, blif_left};
ghost use Rattle.blif.specs.Lent.{LentNamed, LentOutputs, LentResolved, LentNumbered, LentPlaced};
ghost use Rattle.blif.specs.Stages.{placed_refusal, gates_refusal, outputs_refusal, names_refusal, Within, Fitting};
ghost use Rattle.model.specs.Counts.{earlier, some_fault, count_fault};
ghost use Rattle.writing.specs.Lent.{HeldWords};

use names::Words;
use placing::Sources;
use refusal::{Cause, Refusal};
use statements::Keyword;
use writing::{Model, Placement};

// What a text defines: its words, the names of its inputs and then of its gates, the first word of each gate's line, and how many inputs there are.
#[derive(Clone, Copy)]
struct Definitions<'a> {
    words: &'a Words<'a>,
    names: &'a Words<'a>,
    heads: &'a [u16],
    inputs: usize,
}

// Refusal 20 of a model whose gates are placed; if it does not apply the image is written.
fn write_fitting(model: &Model, placement: &Placement, image: &mut [u8]) -> Result<u32, Refusal>
    requires resolved { LentResolved model.now }
    requires placed { LentPlaced model.now placement.now }
    ensures value { result ≡ answer (room_fault (lines_in model.now.words.now 0) (length image.old))
        (model_length (lines_in model.now.words.now 0)) }
    ensures image_after { image.new ≡ unless_refused
        (room_fault (lines_in model.now.words.now 0) (length image.old))
        (image_over (lines_in model.now.words.now 0) image.old) image.old }
{
    let needed = image::RECORD_BYTES * model.heads.len()
        + image::OUTPUT_BYTES * model.outs.len()
        + image::TRAILER_BYTES;
    if image.len() < needed {
        return Err(Refusal {
            cause: Cause::ImageSlice,
            place: 0,
        });
    }
    writing::write_image(model, placement, image);
    Ok(needed as u32)
}

// Refusal 19 for a loop, then 20, of a model whose names are all known.
fn place_model(model: &Model, names: &Words, image: &mut [u8]) -> Result<u32, Refusal>
    requires resolved { LentResolved model.now }
    requires numbered { LentNumbered names.now model.now }
    ensures value { result ≡ answer (placed_refusal (lines_in model.now.words.now 0) (length image.old))
        (model_length (lines_in model.now.words.now 0)) }
    ensures image_after { image.new ≡ unless_refused
        (placed_refusal (lines_in model.now.words.now 0) (length image.old))
        (image_over (lines_in model.now.words.now 0) image.old) image.old }
{
    let mut place = [0u16; area::MOST_GATES];
    let mut order = [0u16; area::MOST_GATES];
    loops::order_gates(
        &mut place,
        &mut order,
        model.sources,
        model.heads.len(),
        names.lines,
    )?;
    let placement = Placement {
        place: &place,
        order: &order,
    };
    write_fitting(model, &placement, image)
}

// Undefined sources, then loops and 20. The outputs are known.
fn read_gates(definitions: &Definitions, outs: &[u16], image: &mut [u8]) -> Result<u32, Refusal>
    requires named { LentNamed definitions.now }
    requires outputs_known { LentOutputs definitions.now outs.now }
    ensures value { result ≡ answer (gates_refusal (lines_in definitions.now.words.now 0) (length image.old))
        (model_length (lines_in definitions.now.words.now 0)) }
    ensures image_after { image.new ≡ unless_refused
        (gates_refusal (lines_in definitions.now.words.now 0) (length image.old))
        (image_over (lines_in definitions.now.words.now 0) image.old) image.old }
{
    let mut pins = [0u16; placing::PIN_ENTRIES];
    let mut counts = [0u16; area::MOST_GATES];
    resolve::resolve_gates(
        definitions.names,
        definitions.words,
        definitions.heads,
        &mut pins,
        &mut counts,
    )?;
    let sources = Sources {
        inputs: definitions.inputs,
        pins: &pins,
        counts: &counts,
    };
    let model = Model {
        words: definitions.words,
        sources,
        heads: definitions.heads,
        outs,
    };
    place_model(&model, definitions.names, image)
}

// Undefined outputs, then undefined sources, loops and 20.
fn read_outputs(definitions: &Definitions, image: &mut [u8]) -> Result<u32, Refusal>
    requires named { LentNamed definitions.now }
    ensures value { result ≡ answer (outputs_refusal (lines_in definitions.now.words.now 0) (length image.old))
        (model_length (lines_in definitions.now.words.now 0)) }
    ensures image_after { image.new ≡ unless_refused
        (outputs_refusal (lines_in definitions.now.words.now 0) (length image.old))
        (image_over (lines_in definitions.now.words.now 0) image.old) image.old }
{
    let mut uses = [0u16; area::MOST_OUTPUTS];
    let mut places = [0u16; area::MOST_OUTPUTS];
    let outputs = model::collect(
        definitions.words,
        Keyword::Outputs,
        &mut uses,
        &mut places,
        0,
    );
    let used = Words {
        text: definitions.words.text,
        starts: &uses,
        lines: &places,
        count: outputs,
    };
    let mut outs = [0u16; area::MOST_OUTPUTS];
    resolve::resolve(definitions.names, &used, 0, outputs, &mut outs, 0)?;
    read_gates(definitions, &outs[..outputs], image)
}

// Names defined twice, then undefined names, loops and 20, of a text whose counts are right.
fn read_names(words: &Words, image: &mut [u8]) -> Result<u32, Refusal>
    requires words { HeldWords words.now }
    requires within { Within (lines_in words.now 0) × Fitting (lines_in words.now 0) }
    ensures value { result ≡ answer (names_refusal (lines_in words.now 0) (length image.old))
        (model_length (lines_in words.now 0)) }
    ensures image_after { image.new ≡ unless_refused
        (names_refusal (lines_in words.now 0) (length image.old))
        (image_over (lines_in words.now 0) image.old) image.old }
{
    let mut starts = [0u16; area::MOST_SOURCES];
    let mut lines = [0u16; area::MOST_SOURCES];
    let inputs = model::collect(words, Keyword::Inputs, &mut starts, &mut lines, 0);
    let many = model::collect(words, Keyword::Names, &mut starts, &mut lines, inputs);
    let names = Words {
        text: words.text,
        starts: &starts,
        lines: &lines,
        count: many,
    };
    let mut heads = [0u16; area::MOST_GATES];
    let gates = model::heads(words, &mut heads);
    resolve::judge_again(&names)?;
    let definitions = Definitions {
        words,
        names: &names,
        heads: &heads[..gates],
        inputs,
    };
    read_outputs(&definitions, image)
}

// Of two refusals the one at the lower line.
fn earlier(first: Result<(), Refusal>, second: Result<(), Refusal>) -> Result<(), Refusal>
    ensures { result ≡ earlier first second }
{
    match (first, second) {
        (Ok(()), _) => second,
        (Err(one), Err(other)) if other.place < one.place => second,
        _ => first,
    }
}

// A model without an output is refused at its last line, `.end`. That the words are held and some are there is asked here, of `judge_counts` and of
// `read_model`: a type for three calls would be longer than these clauses.
fn judge_some(words: &Words) -> Result<(), Refusal>
    requires { HeldWords words.now × (0 < words.now.count) }
    ensures { result ≡ some_fault (lines_in words.now 0) }
{
    match model::judge_count(words, Keyword::Outputs, 0) {
        Ok(()) => Err(Refusal {
            cause: Cause::TextModel,
            place: words.line(words.count - 1),
        }),
        Err(_) => Ok(()),
    }
}

// Refusal 19 for counts outside the image's.
fn judge_counts(words: &Words) -> Result<(), Refusal>
    requires { HeldWords words.now × (0 < words.now.count) }
    ensures { result ≡ count_fault (lines_in words.now 0) }
{
    let inputs = model::judge_count(words, Keyword::Inputs, area::MOST_INPUTS);
    let outputs = model::judge_count(words, Keyword::Outputs, area::MOST_OUTPUTS);
    let gates = model::judge_count(words, Keyword::Names, area::MOST_GATES);
    let some = judge_some(words);
    earlier(inputs, earlier(outputs, earlier(gates, some)))
}

// Refusals 19 and 20 of a text where 18 finds nothing.
fn read_model(words: &Words, image: &mut [u8]) -> Result<u32, Refusal>
    requires words { HeldWords words.now × (0 < words.now.count) }
    requires fitting { Fitting (lines_in words.now 0) }
    ensures value { result ≡ answer (lines_refusal (lines_in words.now 0) (length image.old))
        (model_length (lines_in words.now 0)) }
    ensures image_after { image.new ≡ unless_refused
        (lines_refusal (lines_in words.now 0) (length image.old))
        (image_over (lines_in words.now 0) image.old) image.old }
{
    judge_counts(words)?;
    read_names(words, image)
}

// Reads a text, whatever its bytes, and writes its image over the first bytes of a slice; it answers the image's length. A refused call changes no byte.
pub fn read_blif(text: &[u8], image: &mut [u8]) -> Result<u32, Refusal>
    ensures value { result ≡ answer (blif_refusal text.now (length image.old)) (model_length (text_lines text.now)) }
    ensures image_after { image.new ≡ blif_left text.now image.old }
{
    if text.len() > texts::MOST_BYTES {
        return Err(Refusal {
            cause: Cause::TextLine,
            place: 0,
        });
    }
    let mut starts = [0u16; texts::MOST_WORDS];
    let mut lines = [0u16; texts::MOST_WORDS];
    let found = texts::read_words(text, &mut starts, &mut lines);
    let words = Words {
        text,
        starts: &starts,
        lines: &lines,
        count: found.count,
    };
    statements::fault(&words, found.last)?;
    read_model(&words, image)
}
