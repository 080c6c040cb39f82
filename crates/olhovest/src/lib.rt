// The reader for C: functions over bytes and numbers. A table is a slice of words, its records one after the other.
#![tactic(auto)]

ghost use Rattle.std.specs.Prelude.{◌≡◌};
ghost use Rattle.file_answer.specs.Answered.{answer_of};
ghost use Rattle.table_words.specs.Packed.{fault_number, answer_words, word_tables};
ghost use Rattle.olhovest.specs.Exported.{version, lengths_are, Exports};

use record_words::ANSWER_WORDS;
use records::Lengths;

pub mod asked; // asked.rt: what is asked of filled tables
pub mod cells; // cells.rt: cells as doubles

// The version of the records. A function over records that moved, or that takes something else, has the version that moved it in its name, so that
// a program compiled for another does not link.
#[unsafe(no_mangle)]
pub extern "C" fn olhovest_version() -> u64
    ensures { result ≡ version }
{
    4
}

// The answer to a file, were tables of these many records lent. No row is kept.
#[unsafe(no_mangle)]
pub extern "C" fn olhovest_check_4(
    src: &[u8],
    components: usize,
    pins: usize,
    selectors: usize,
    choices: usize,
    models: usize,
    waveforms: usize,
    answer: &mut [u64; ANSWER_WORDS],
) -> u8
    ensures value { result ≡ fault_number (answer_of (lengths_are components pins selectors choices models waveforms) src.now).verdict }
    ensures answer_after { answer.new ≡ answer_words (answer_of (lengths_are components pins selectors choices models waveforms) src.now) }
{
    let l = Lengths {
        components: components,
        pins: pins,
        selectors: selectors,
        choices: choices,
        models: models,
        waveforms: waveforms,
    };
    let a = file_answer::check(src, l);
    table_words::put_answer(answer, a);
    table_words::fault_number(a.verdict)
}

// Reads a file into the lent tables.
#[unsafe(no_mangle)]
pub extern "C" fn olhovest_read_3(
    src: &[u8],
    components: &mut [u64],
    pins: &mut [u64],
    selectors: &mut [u64],
    choices: &mut [u64],
    models: &mut [u64],
    waveforms: &mut [u64],
    rows: &mut [u64],
    answer: &mut [u64; ANSWER_WORDS],
) -> u8
    ensures { Exports src.now (word_tables components.old pins.old selectors.old choices.old models.old waveforms.old rows.old) result answer.new (word_tables components.new pins.new selectors.new choices.new models.new waveforms.new rows.new) }
{
    let a = table_reader::read(
        src, components, pins, selectors, choices, models, waveforms, rows,
    );
    table_words::put_answer(answer, a);
    table_words::fault_number(a.verdict)
}
