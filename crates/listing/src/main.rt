// Standard input is checked for tables at document 01's bounds, no row is kept, and the listing is printed.
#![tactic(auto)]

use program_output::tables::{CHOICE_TABLE, MODEL_TABLE, PIN_TABLE, SELECTOR_TABLE};

mod listing; // listing.rt: the counts and the pins of an accepted file

fn main() {
    let mut src = program_output::file_buffer();
    let n = io::read_full(0, &mut src);
    let mut pins = [0u64; PIN_TABLE];
    let mut selectors = [0u64; SELECTOR_TABLE];
    let mut choices = [0u64; CHOICE_TABLE];
    let mut models = [0u64; MODEL_TABLE];
    let answer = table_reader::list(
        &src[..n],
        &mut pins,
        &mut selectors,
        &mut choices,
        &mut models,
    );
    listing::print_answer(answer, &pins, &selectors, &choices, &models);
}
