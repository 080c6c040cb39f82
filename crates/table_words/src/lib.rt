// The answer and the tables as words, for C: a record is as many words as its fields need, and a table has its records one after the other.
#![tactic(auto)]

ghost use Rattle.std.specs.Prelude.{◌≡◌};
ghost use Rattle.table_words.specs.Packed.{fault_number, fault_line, fault_column, count_words, answer_words, word_tables, Room, filled};

use record_words::{ANSWER_WORDS, COUNT_WORDS, TEXT_WORDS};
use records::{Answer, Counts, Fault};

pub mod fills; // fills.rt: tables as words
pub mod lists; // lists.rt: those of a listing

pub use lists::list_tables;

// Where the words of the revision begin, behind those of the counts and the file's name.
const REVISION_FROM: usize = COUNT_WORDS + TEXT_WORDS;

pub fn fault_number(v: Result<(), Fault>) -> u8
    ensures { result ≡ fault_number v }
{
    match v {
        Ok(()) => 0,
        Err(f) => f.number,
    }
}

fn fault_line(v: Result<(), Fault>) -> u64
    ensures { result ≡ fault_line v }
{
    match v {
        Ok(()) => 0,
        Err(f) => f.line,
    }
}

fn fault_column(v: Result<(), Fault>) -> u64
    ensures { result ≡ fault_column v }
{
    match v {
        Ok(()) => 0,
        Err(f) => f.column,
    }
}

fn count_words(line: u64, column: u64, c: Counts) -> [u64; COUNT_WORDS]
    ensures { result ≡ count_words line column c }
{
    [
        line,
        column,
        c.components as u64,
        c.pins as u64,
        c.selectors as u64,
        c.choices as u64,
        c.models as u64,
        c.waveforms as u64,
        c.rows as u64,
    ]
}

pub fn put_answer(answer: &mut [u64; ANSWER_WORDS], a: Answer)
    ensures { answer.new ≡ answer_words a }
{
    let v = a.verdict;
    let head = count_words(fault_line(v), fault_column(v), a.counts);
    let name = record_words::tables::text_words(a.header.name);
    let revision = record_words::tables::text_words(a.header.revision);
    section_words::put(answer, 0, &head);
    section_words::put(answer, COUNT_WORDS, &name);
    section_words::put(answer, REVISION_FROM, &revision);
}

pub fn fill_tables(
    src: &[u8],
    notes: &[u16],
    o: Counts,
    components: &mut [u64],
    pins: &mut [u64],
    selectors: &mut [u64],
    choices: &mut [u64],
    models: &mut [u64],
    waveforms: &mut [u64],
    rows: &mut [u64],
)
    requires { Room src.now notes.now o (word_tables components.old pins.old selectors.old choices.old models.old waveforms.old rows.old) }
    ensures { word_tables components.new pins.new selectors.new choices.new models.new waveforms.new rows.new ≡ filled src.now notes.now o (word_tables components.old pins.old selectors.old choices.old models.old waveforms.old rows.old) }
{
    fills::fill_components(components, src, notes, o.components);
    fills::fill_pins(pins, src, notes, o.pins);
    fills::fill_selectors(selectors, src, notes, o.selectors);
    fills::fill_choices(choices, src, notes, o.choices);
    fills::fill_models(models, waveforms, rows, src, notes, o.models);
}
