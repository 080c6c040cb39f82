// The sections of a file in file order.
use crate::parts::{put_component, put_model, put_selector};
use program_output::sections::{sections_in, with_section};
use program_output::tables::Tables;
use program_output::walks::put_all;
use record_words::{COMPONENT_WORDS, MODEL_WORDS, SELECTOR_WORDS};
use table_records::tables::{component_in, model_in, selector_in};
use text_buffer::Page;

fn put_section(page: &mut Page, k: usize, t: Tables) {
    if let Some(i) = with_section(t.components, COMPONENT_WORDS, k) {
        put_component(page, i, component_in(t.components, i), t.pins);
    }
    if let Some(i) = with_section(t.selectors, SELECTOR_WORDS, k) {
        put_selector(page, i, selector_in(t.selectors, i), t.choices);
    }
    if let Some(i) = with_section(t.models, MODEL_WORDS, k) {
        put_model(page, i, model_in(t.models, i), t.waveforms, t.rows);
    }
}

// All sections of tables that hold no other records than those in use.
pub(crate) fn put_sections(page: &mut Page, t: Tables) {
    let n = sections_in(t.components, t.selectors, t.models);
    put_all(page, n, |page, k| put_section(page, k, t));
}
