// The listing on standard output: the counts, and a line for each pin with the thresholds of the model chosen for it.
use decimal::Cell;
use program_output::put_page;
use program_output::tables::{records_in, used};
use program_output::walks::put_all;
use questions::choices::{model_for, name_for};
use record_words::{CHOICE_WORDS, MODEL_WORDS, PIN_WORDS, SELECTOR_WORDS};
use records::{Answer, Pin};
use table_records::tables::{model_in, pin_in};
use text_buffer::Page;

// A pin without a model has no thresholds.
fn put_pin(page: &mut Page, p: Pin, selectors: &[u64], choices: &[u64], models: &[u64]) {
    let name = name_for(selectors, choices, p);
    let (low, high) = match model_for(selectors, choices, models, p) {
        Some(k) => {
            let m = model_in(models, k);
            (m.vinl, m.vinh)
        }
        None => (Cell::Missing, Cell::Missing),
    };
    text_buffer::listed_line(page, p.name, p.signal, name, low, high);
}

// The listing of an accepted file that uses so much of its tables, or the refusal.
pub(crate) fn print_answer(
    answer: Answer,
    pins: &[u64],
    selectors: &[u64],
    choices: &[u64],
    models: &[u64],
) {
    match answer.verdict {
        Ok(()) => {
            let counts = answer.counts;
            let all = used(pins, PIN_WORDS, counts.pins);
            let s = used(selectors, SELECTOR_WORDS, counts.selectors);
            let c = used(choices, CHOICE_WORDS, counts.choices);
            let m = used(models, MODEL_WORDS, counts.models);
            let mut out = io::large_buffer();
            let mut page = Page::new(&mut out);
            text_buffer::accepted_line(&mut page, counts);
            put_all(&mut page, records_in(all, PIN_WORDS), |page, k| {
                put_pin(page, pin_in(all, k), s, c, m);
            });
            put_page(&page);
        }
        Err(f) => program_output::print_refusal(f),
    }
}
