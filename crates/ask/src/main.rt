// Standard input is read into tables at document 01's bounds and 8,192 rows, and what is asked of it is printed; of a refused file its refusal.
// The first argument is the question's word.
#![tactic(auto)]

use as_doubles::print_doubles;
use program_output::print_refusal;
use program_output::tables::{
    CHOICE_TABLE, COMPONENT_TABLE, MODEL_TABLE, PIN_TABLE, ROW_TABLE, SELECTOR_TABLE, Tables,
    WAVEFORM_TABLE,
};
use std::env::Env;

mod as_doubles; // as_doubles.rt: every cell as a double
mod cells; // cells.rt: a record's lines of doubles, with those of what is its own in other tables

#[derive(Clone, Copy)]
enum Question {
    Doubles,
}

fn asked_by(word: &[u8]) -> Option<Question> {
    words::same(word, b"doubles").then_some(Question::Doubles)
}

fn print_questions() {
    io::write_all(
        2,
        b"ask: the file stands on standard input, and the question is one of: doubles\n",
    );
}

// What is asked about the file.
fn print_answer(question: Question, src: &[u8]) {
    let mut components = [0u64; COMPONENT_TABLE];
    let mut pins = [0u64; PIN_TABLE];
    let mut selectors = [0u64; SELECTOR_TABLE];
    let mut choices = [0u64; CHOICE_TABLE];
    let mut models = [0u64; MODEL_TABLE];
    let mut waveforms = [0u64; WAVEFORM_TABLE];
    let mut rows = [0u64; ROW_TABLE];
    let answer = table_reader::read(
        src,
        &mut components,
        &mut pins,
        &mut selectors,
        &mut choices,
        &mut models,
        &mut waveforms,
        &mut rows,
    );
    let tables = Tables {
        components: &components,
        pins: &pins,
        selectors: &selectors,
        choices: &choices,
        models: &models,
        waveforms: &waveforms,
        rows: &rows,
    };
    match answer.verdict {
        Err(f) => print_refusal(f),
        Ok(()) => match question {
            Question::Doubles => print_doubles(tables.in_use(answer.counts)),
        },
    }
}

fn main(rt: HostRuntime) {
    let mut word = io::buffer();
    let n = rt.arg(1, &mut word).unwrap_or(0);
    match asked_by(&word[..n]) {
        Some(question) => {
            let mut src = program_output::file_buffer();
            let m = io::read_full(0, &mut src);
            print_answer(question, &src[..m]);
        }
        None => print_questions(),
    }
}
