// The summary of an accepted file on standard output: the file, each component with its pins in columns as wide as their names, and the die
// capacitance of each model.
ghost use Rattle.std.specs.Prelude.{cond, ◌≡◌, ltb};
ghost use Rattle.text_buffer.specs.Pages.{sheet};
ghost use Rattle.explain_output.specs.Capacitances.{capacitances};

use explain_text::Widths;
use program_output::put_page;
use program_output::tables::{Tables, records_in};
use program_output::walks::{put_all, put_span};
use questions::choices::model_for;
use record_words::{COMPONENT_WORDS, MODEL_WORDS, PIN_WORDS};
use records::{Answer, Component, Name, Pin};
use table_records::tables::{component_in, model_in, pin_in};
use text_buffer::Page;

// ---- how wide the columns are: as their headings, or as the longest name

// As wide as before, or as the name where that is longer.
fn wider(width: usize, name: Name) -> usize
    ensures { result ≡ cond (ltb width name.len) name.len width }
{
    let n = name.len as usize;
    if width < n { n } else { width }
}

fn model_width(models: &[u64]) -> usize {
    let mut width = 5;
    for i in 0..records_in(models, MODEL_WORDS) {
        width = wider(width, model_in(models, i).name);
    }
    width
}

fn widths_of(pins: &[u64], model: usize) -> Widths {
    let mut pin = 3;
    let mut signal = 6;
    for i in 0..records_in(pins, PIN_WORDS) {
        let p = pin_in(pins, i);
        pin = wider(pin, p.name);
        signal = wider(signal, p.signal);
    }
    Widths { pin, signal, model }
}

// ---- components and their pins

fn put_pin(page: &mut Page, w: Widths, p: Pin, t: Tables) {
    match model_for(t.selectors, t.choices, t.models, p) {
        Some(k) => explain_text::put_pin(page, w, p, model_in(t.models, k)),
        None => explain_text::put_bare_pin(page, w, p),
    }
}

fn put_component(page: &mut Page, w: Widths, c: Component, t: Tables) {
    explain_text::put_component(page, c);
    explain_text::put_heading(page, w);
    put_span(page, c.pins, records_in(t.pins, PIN_WORDS), |page, k| {
        put_pin(page, w, pin_in(t.pins, k), t);
    });
}

// ---- models and their die capacitance

fn put_capacitances(page: &mut Page, width: usize, models: &[u64])
    ensures { sheet page.new ≡ capacitances width models.now (sheet page.old) }
{
    explain_text::put_capacitance_heading(page, width);
    put_all(page, records_in(models, MODEL_WORDS), |page, k| {
        explain_text::put_capacitances(page, width, model_in(models, k));
    });
}

// ---- all of it

// The components and the models in tables that hold no other records than those in use.
fn put_tables(page: &mut Page, t: Tables) {
    let width = model_width(t.models);
    let w = widths_of(t.pins, width);
    for i in 0..records_in(t.components, COMPONENT_WORDS) {
        put_component(page, w, component_in(t.components, i), t);
    }
    if !t.models.is_empty() {
        put_capacitances(page, width, t.models);
    }
}

// The summary of an accepted file.
pub(crate) fn print_summary(page: &mut Page, name: &[u8], answer: Answer, tables: Tables) {
    explain_text::put_header(page, name, answer.header);
    explain_text::put_counts(page, answer.counts);
    put_tables(page, tables.in_use(answer.counts));
    put_page(page);
}
