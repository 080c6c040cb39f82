// Standard input is read as a file and told to a person: a summary, or the fault and its line. All rows that a file can have are lent.
// The first argument is the file's name.
#![tactic(auto)]

use explain_output::print_answer;
use program_output::tables::{
    CHOICE_TABLE, COMPONENT_TABLE, MODEL_TABLE, PIN_TABLE, ROW_TABLE, SELECTOR_TABLE, Tables,
    WAVEFORM_TABLE,
};
use std::env::Env;

fn print_file(name: &[u8], src: &[u8]) {
    let mut components = [0u64; COMPONENT_TABLE];
    let mut pins = [0u64; PIN_TABLE];
    let mut selectors = [0u64; SELECTOR_TABLE];
    let mut choices = [0u64; CHOICE_TABLE];
    let mut models = [0u64; MODEL_TABLE];
    let mut waveforms = [0u64; WAVEFORM_TABLE];
    let mut rows = [0u64; ROW_TABLE];
    let answer = table_reader::read(
        src,
        &mut components,
        &mut pins,
        &mut selectors,
        &mut choices,
        &mut models,
        &mut waveforms,
        &mut rows,
    );
    let tables = Tables {
        components: &components,
        pins: &pins,
        selectors: &selectors,
        choices: &choices,
        models: &models,
        waveforms: &waveforms,
        rows: &rows,
    };
    print_answer(name, src, answer, tables);
}

fn main(rt: HostRuntime) {
    let mut name = io::buffer();
    let n = rt.arg(1, &mut name).unwrap_or(0);
    let mut src = program_output::file_buffer();
    let m = io::read_full(0, &mut src);
    if n == 0 {
        print_file(b"standard input", &src[..m]);
        return;
    }
    print_file(&name[..n], &src[..m]);
}
