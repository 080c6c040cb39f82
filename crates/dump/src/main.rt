// Standard input is read into tables at document 01's bounds and 8,192 rows, and all that they keep is printed.
#![tactic(auto)]

use program_output::tables::{
    CHOICE_TABLE, COMPONENT_TABLE, MODEL_TABLE, PIN_TABLE, ROW_TABLE, SELECTOR_TABLE,
    WAVEFORM_TABLE,
};

fn main() {
    let mut src = program_output::file_buffer();
    let n = io::read_full(0, &mut src);
    let mut components = [0u64; COMPONENT_TABLE];
    let mut pins = [0u64; PIN_TABLE];
    let mut selectors = [0u64; SELECTOR_TABLE];
    let mut choices = [0u64; CHOICE_TABLE];
    let mut models = [0u64; MODEL_TABLE];
    let mut waveforms = [0u64; WAVEFORM_TABLE];
    let mut rows = [0u64; ROW_TABLE];
    dump_output::print_file(
        &src[..n],
        &mut components,
        &mut pins,
        &mut selectors,
        &mut choices,
        &mut models,
        &mut waveforms,
        &mut rows,
    );
}
