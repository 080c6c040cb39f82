// `doubles`: every cell of an accepted file as a double, section by section in file order. A selector has no cells.
use crate::cells::{put_component, put_model};
use program_output::put_page;
use program_output::sections::{sections_in, with_section};
use program_output::tables::Tables;
use program_output::walks::put_all;
use record_words::{COMPONENT_WORDS, MODEL_WORDS};
use table_records::tables::{component_in, model_in};
use text_buffer::Page;

fn put_section(page: &mut Page, k: usize, t: Tables) {
    if let Some(i) = with_section(t.components, COMPONENT_WORDS, k) {
        put_component(page, component_in(t.components, i), t.pins);
    }
    if let Some(i) = with_section(t.models, MODEL_WORDS, k) {
        put_model(page, model_in(t.models, i), t.waveforms, t.rows);
    }
}

// A line for each cell, of tables that hold no other records than those in use.
pub(crate) fn print_doubles(t: Tables) {
    let mut out = io::large_buffer();
    let mut page = Page::new(&mut out);
    let n = sections_in(t.components, t.selectors, t.models);
    put_all(&mut page, n, |page, k| put_section(page, k, t));
    put_page(&page);
}
