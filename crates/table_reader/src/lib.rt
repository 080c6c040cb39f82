// The reader over tables in words: a file is checked first, and the lent tables are filled only when it is accepted; all of them, or those of a listing.
#![tactic(auto)]

ghost use Rattle.std.specs.Prelude.{◌≡◌, ◌/◌};
ghost use Rattle.table_words.specs.Packed.{word_tables, list_tables};
ghost use Rattle.table_reader.specs.ReadInWords.{room_in, ReadInWords};
ghost use Rattle.table_reader.specs.Listed.{lengths_listed, Lists};

use note_words::STORE_LENGTH;
use record_words::{
    CHOICE_WORDS, COMPONENT_WORDS, MODEL_WORDS, PIN_WORDS, ROW_WORDS, SELECTOR_WORDS,
    WAVEFORM_WORDS,
};
use records::{Answer, Lending, Lengths, MOST_COMPONENTS, MOST_WAVEFORMS};

// How many whole records and rows the lent tables have room for.
fn room_in(
    components: &[u64],
    pins: &[u64],
    selectors: &[u64],
    choices: &[u64],
    models: &[u64],
    waveforms: &[u64],
    rows: &[u64],
) -> Lending
    ensures { result ≡ room_in (word_tables components.now pins.now selectors.now choices.now models.now waveforms.now rows.now) }
{
    Lending {
        tables: Lengths {
            components: components.len() / COMPONENT_WORDS,
            pins: pins.len() / PIN_WORDS,
            selectors: selectors.len() / SELECTOR_WORDS,
            choices: choices.len() / CHOICE_WORDS,
            models: models.len() / MODEL_WORDS,
            waveforms: waveforms.len() / WAVEFORM_WORDS,
        },
        rows: rows.len() / ROW_WORDS,
    }
}

// Reads a file into the lent tables.
pub fn read(
    src: &[u8],
    components: &mut [u64],
    pins: &mut [u64],
    selectors: &mut [u64],
    choices: &mut [u64],
    models: &mut [u64],
    waveforms: &mut [u64],
    rows: &mut [u64],
) -> Answer
    ensures { ReadInWords src.now (word_tables components.old pins.old selectors.old choices.old models.old waveforms.old rows.old) result (word_tables components.new pins.new selectors.new choices.new models.new waveforms.new rows.new) }
{
    let mut notes = [0u16; STORE_LENGTH];
    let l = room_in(
        components, pins, selectors, choices, models, waveforms, rows,
    );
    let a = file_answer::loaded(src, l, &mut notes);
    table_words::fill_tables(
        src, &notes, a.counts, components, pins, selectors, choices, models, waveforms, rows,
    );
    a
}

// How many whole records the tables of a listing have room for; of what it does not keep, as many as a file has at most.
fn lengths_listed(pins: &[u64], selectors: &[u64], choices: &[u64], models: &[u64]) -> Lengths
    ensures { result ≡ lengths_listed (list_tables pins.now selectors.now choices.now models.now) }
{
    Lengths {
        components: MOST_COMPONENTS,
        pins: pins.len() / PIN_WORDS,
        selectors: selectors.len() / SELECTOR_WORDS,
        choices: choices.len() / CHOICE_WORDS,
        models: models.len() / MODEL_WORDS,
        waveforms: MOST_WAVEFORMS,
    }
}

// Checks a file without keeping its rows, and lists it in the lent tables: its pins, its selectors with their rows, and its models as their first lines
// say them.
pub fn list(
    src: &[u8],
    pins: &mut [u64],
    selectors: &mut [u64],
    choices: &mut [u64],
    models: &mut [u64],
) -> Answer
    ensures { Lists src.now (list_tables pins.old selectors.old choices.old models.old) result (list_tables pins.new selectors.new choices.new models.new) }
{
    let mut notes = [0u16; STORE_LENGTH];
    let l = lengths_listed(pins, selectors, choices, models);
    let a = file_answer::outlined(src, l, &mut notes);
    table_words::list_tables(src, &notes, a.counts, pins, selectors, choices, models);
    a
}
