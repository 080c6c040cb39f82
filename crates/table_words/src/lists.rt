// The tables of a listing as words: no rows, no waveforms, and of each model what its first lines say.
ghost use Rattle.std.specs.Prelude.{◌≡◌, ◌*◌, ◌≤◌, length};
ghost use Rattle.records.specs.Stored.{over};
ghost use Rattle.from_notes.specs.Made.{joined_to};
ghost use Rattle.record_words.specs.Records.{model_size};
ghost use Rattle.table_words.specs.Packed.{listed_words_at, list_tables, ListRoom, listed};

use crate::fills::{fill_choices, fill_pins, fill_selectors};
use from_notes::places::{name_noted, place_noted, section_noted, section_word};
use note_words::{MODELS_FROM, SECTION_START};
use record_words::MODEL_WORDS;
use records::Counts;

// The record of the model that is noted at place i of its list.
fn list_model(model: &mut [u64], src: &[u8], notes: &[u16], i: usize)
    requires { model_size ≤ length model.old }
    ensures { model.new ≡ over model.old (listed_words_at src.now notes.now i) }
{
    let section = place_noted(notes, MODELS_FROM, i);
    let start = section_word(notes, MODELS_FROM, i, SECTION_START);
    let c = section_noted(src, notes, MODELS_FROM, i);
    section_words::list_model(
        model,
        src,
        c,
        name_noted(src, notes, MODELS_FROM, i),
        section,
        start,
    );
}

// The records of the first n models.
fn list_models(models: &mut [u64], src: &[u8], notes: &[u16], n: usize)
    requires { model_size * n ≤ length models.old }
    ensures { models.new ≡ over models.old (joined_to (listed_words_at src.now notes.now) n) }
{
    for i in 0..n {
        list_model(&mut models[MODEL_WORDS * i..], src, notes, i);
    }
}

pub fn list_tables(
    src: &[u8],
    notes: &[u16],
    o: Counts,
    pins: &mut [u64],
    selectors: &mut [u64],
    choices: &mut [u64],
    models: &mut [u64],
)
    requires { ListRoom o (list_tables pins.old selectors.old choices.old models.old) }
    ensures { list_tables pins.new selectors.new choices.new models.new ≡ listed src.now notes.now o (list_tables pins.old selectors.old choices.old models.old) }
{
    fill_pins(pins, src, notes, o.pins);
    fill_selectors(selectors, src, notes, o.selectors);
    fill_choices(choices, src, notes, o.choices);
    list_models(models, src, notes, o.models);
}
