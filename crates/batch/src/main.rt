// Many files in one run. Standard input holds records: seven lent lengths and n, four bytes each, lowest first, then the n bytes of a file.
// Each file's dump is printed. A record that is cut off ends the run. The tables hold a pattern where nothing is read: a word that a reading
// changes beyond what it uses is told, by a line of its own that no dump has.
#![tactic(auto)]

use heads::{Next, lending_in, next_file};
use patterns::{PATTERN, is_plain, renewed};
use program_output::put_out;
use program_output::tables::{
    CHOICE_TABLE, COMPONENT_TABLE, MODEL_TABLE, PIN_TABLE, ROW_TABLE, SELECTOR_TABLE,
    WAVEFORM_TABLE, words_in,
};
use record_words::{
    CHOICE_WORDS, COMPONENT_WORDS, MODEL_WORDS, PIN_WORDS, ROW_WORDS, SELECTOR_WORDS,
    WAVEFORM_WORDS,
};
use records::{Counts, Lending};

mod heads; // heads.rt: records of standard input
mod patterns; // patterns.rt: tables that hold a pattern where nothing is read

fn tell_changed() {
    put_out(b"CHANGED\n", 8);
}

// Prints a file's dump. Of each table so many records are lent, and no more than it has.
fn print_lent(
    src: &[u8],
    l: Lending,
    components: &mut [u64],
    pins: &mut [u64],
    selectors: &mut [u64],
    choices: &mut [u64],
    models: &mut [u64],
    waveforms: &mut [u64],
    rows: &mut [u64],
) -> Counts {
    let t = l.tables;
    let c = words_in(components.len(), COMPONENT_WORDS, t.components);
    let p = words_in(pins.len(), PIN_WORDS, t.pins);
    let s = words_in(selectors.len(), SELECTOR_WORDS, t.selectors);
    let h = words_in(choices.len(), CHOICE_WORDS, t.choices);
    let m = words_in(models.len(), MODEL_WORDS, t.models);
    let w = words_in(waveforms.len(), WAVEFORM_WORDS, t.waveforms);
    let r = words_in(rows.len(), ROW_WORDS, l.rows);
    let answer = dump_output::print_file(
        src,
        &mut components[0..c],
        &mut pins[0..p],
        &mut selectors[0..s],
        &mut choices[0..h],
        &mut models[0..m],
        &mut waveforms[0..w],
        &mut rows[0..r],
    );
    answer.counts
}

// Every table as it was before so much of it was used; false where more had changed than that.
fn renew(
    used: Counts,
    components: &mut [u64; COMPONENT_TABLE],
    pins: &mut [u64; PIN_TABLE],
    selectors: &mut [u64; SELECTOR_TABLE],
    choices: &mut [u64; CHOICE_TABLE],
    models: &mut [u64; MODEL_TABLE],
    waveforms: &mut [u64; WAVEFORM_TABLE],
    rows: &mut [u64; ROW_TABLE],
) -> bool {
    let c = renewed(components, COMPONENT_WORDS, used.components);
    let p = renewed(pins, PIN_WORDS, used.pins);
    let s = renewed(selectors, SELECTOR_WORDS, used.selectors);
    let h = renewed(choices, CHOICE_WORDS, used.choices);
    let m = renewed(models, MODEL_WORDS, used.models);
    let w = renewed(waveforms, WAVEFORM_WORDS, used.waveforms);
    let r = renewed(rows, ROW_WORDS, used.rows);
    c && p && s && h && m && w && r
}

// The first n bytes.
fn front(src: &[u8], n: usize) -> &[u8] {
    if n < src.len() {
        return &src[0..n];
    }
    src
}

fn print_next(
    src: &[u8],
    l: Lending,
    components: &mut [u64; COMPONENT_TABLE],
    pins: &mut [u64; PIN_TABLE],
    selectors: &mut [u64; SELECTOR_TABLE],
    choices: &mut [u64; CHOICE_TABLE],
    models: &mut [u64; MODEL_TABLE],
    waveforms: &mut [u64; WAVEFORM_TABLE],
    rows: &mut [u64; ROW_TABLE],
) {
    let used = print_lent(
        src, l, components, pins, selectors, choices, models, waveforms, rows,
    );
    if !renew(
        used, components, pins, selectors, choices, models, waveforms, rows,
    ) {
        tell_changed();
    }
}

// The tables whole, once no file is left.
fn look(
    components: &[u64; COMPONENT_TABLE],
    pins: &[u64; PIN_TABLE],
    selectors: &[u64; SELECTOR_TABLE],
    choices: &[u64; CHOICE_TABLE],
    models: &[u64; MODEL_TABLE],
    waveforms: &[u64; WAVEFORM_TABLE],
    rows: &[u64; ROW_TABLE],
) {
    if is_plain(components)
        && is_plain(pins)
        && is_plain(selectors)
        && is_plain(choices)
        && is_plain(models)
        && is_plain(waveforms)
        && is_plain(rows)
    {
        return;
    }
    tell_changed();
}

fn main() {
    let mut src = [0u8; 131072];
    let mut head = [0u8; 32];
    let mut components = [PATTERN; COMPONENT_TABLE];
    let mut pins = [PATTERN; PIN_TABLE];
    let mut selectors = [PATTERN; SELECTOR_TABLE];
    let mut choices = [PATTERN; CHOICE_TABLE];
    let mut models = [PATTERN; MODEL_TABLE];
    let mut waveforms = [PATTERN; WAVEFORM_TABLE];
    let mut rows = [PATTERN; ROW_TABLE];
    let mut files: u64 = 0;
    while files < 1000000 {
        let Next::File(n) = next_file(&mut head, &mut src) else {
            break;
        };
        print_next(
            front(&src, n),
            lending_in(&head),
            &mut components,
            &mut pins,
            &mut selectors,
            &mut choices,
            &mut models,
            &mut waveforms,
            &mut rows,
        );
        files += 1;
    }
    look(
        &components,
        &pins,
        &selectors,
        &choices,
        &models,
        &waveforms,
        &rows,
    );
}
