// The summary of an accepted file: what it is, how much it has, and its pins in columns.
ghost use Rattle.std.specs.Prelude.{◌≡◌, ◌-◌};
ghost use Rattle.text_buffer.specs.Lines.{name_text};
ghost use Rattle.text_buffer.specs.Pages.{Writes};
ghost use Rattle.line_rules.specs.Tables.{type_name};
ghost use Rattle.explain_text.specs.Summaries.{header_text, labelled_text, counts_text, gap_text, column, level_text, component_text, heading_text, pin_columns, selector_text, pin_text, bare_text};

use decimal::Cell;
use records::{Component, Counts, Header, Model, ModelType, Name, Pin};
use text_buffer::Page;

// The widths of the columns that hold names.
#[derive(Clone, Copy)]
pub struct Widths {
    pub pin: usize,
    pub signal: usize,
    pub model: usize,
}

// ---- the file

pub fn put_header(page: &mut Page, name: &[u8], header: Header)
    ensures { Writes page.old page.new (header_text name.now header) }
{
    page.put_bytes(name);
    page.put_bytes(b": accepted\nfile name: ");
    page.put_words(header.name);
    page.put_bytes(b"\nrevision: ");
    page.put_words(header.revision);
    page.put_byte(b'\n');
}

fn put_labelled(page: &mut Page, label: &[u8], count: usize)
    ensures { Writes page.old page.new (labelled_text label.now count) }
{
    page.put_bytes(label);
    page.put_number(count as u64);
}

pub fn put_counts(page: &mut Page, counts: Counts)
    ensures { Writes page.old page.new (counts_text counts) }
{
    put_labelled(page, b"components: ", counts.components);
    put_labelled(page, b", pins: ", counts.pins);
    put_labelled(page, b", selectors: ", counts.selectors);
    put_labelled(page, b", models: ", counts.models);
    put_labelled(page, b", waveforms: ", counts.waveforms);
    put_labelled(page, b", table rows: ", counts.rows);
    page.put_byte(b'\n');
}

// ---- columns

// What fills a column whose text was put from start on.
pub(crate) fn put_gap(page: &mut Page, start: usize, width: usize)
    ensures { Writes page.old page.new (gap_text width (page.old.at - start)) }
{
    let count = page.len().saturating_sub(start);
    page.put_repeated(b' ', width.saturating_sub(count));
    page.put_bytes(b"  ");
}

pub(crate) fn put_column(page: &mut Page, text: &[u8], width: usize)
    ensures { Writes page.old page.new (column width text.now) }
{
    let start = page.len();
    page.put_bytes(text);
    put_gap(page, start, width);
}

pub(crate) fn put_name_column(page: &mut Page, name: Name, width: usize)
    ensures { Writes page.old page.new (column width (name_text name)) }
{
    let start = page.len();
    page.put_name(name);
    put_gap(page, start, width);
}

fn put_type_column(page: &mut Page, kind: ModelType)
    ensures { Writes page.old page.new (column 15 (type_name kind)) }
{
    let start = page.len();
    type_text::put_type(page, kind);
    put_gap(page, start, 15);
}

// Volts, written out; a missing cell is a dash.
fn put_level(page: &mut Page, cell: Cell)
    ensures { Writes page.old page.new (level_text cell) }
{
    match cell {
        Cell::Number(d) => page.put_plain_decimal(d),
        Cell::Missing => page.put_bytes(b"-"),
    }
}

fn put_level_column(page: &mut Page, cell: Cell)
    ensures { Writes page.old page.new (column 8 (level_text cell)) }
{
    let start = page.len();
    put_level(page, cell);
    put_gap(page, start, 8);
}

// ---- a component and its pins

pub fn put_component(page: &mut Page, c: Component)
    ensures { Writes page.old page.new (component_text c) }
{
    page.put_bytes(b"\ncomponent ");
    page.put_name(c.name);
    page.put_bytes(b", manufacturer ");
    page.put_name(c.manufacturer);
    page.put_byte(b'\n');
}

pub fn put_heading(page: &mut Page, w: Widths)
    ensures { Writes page.old page.new (heading_text w) }
{
    page.put_bytes(b"  ");
    put_column(page, b"pin", w.pin);
    put_column(page, b"signal", w.signal);
    put_column(page, b"model", w.model);
    page.put_bytes(b"type             Vinl (V)  Vinh (V)\n");
}

fn put_pin_columns(page: &mut Page, w: Widths, p: Pin, model: Name)
    ensures { Writes page.old page.new (pin_columns w p model) }
{
    page.put_bytes(b"  ");
    put_name_column(page, p.name, w.pin);
    put_name_column(page, p.signal, w.signal);
    put_name_column(page, model, w.model);
}

fn put_selector(page: &mut Page, p: Pin, m: Model)
    ensures { Writes page.old page.new (selector_text p m) }
{
    if !questions::names::same_name(m.name, p.model) {
        page.put_bytes(b"  by selector ");
        page.put_name(p.model);
    }
}

// A pin with the model chosen for it.
pub fn put_pin(page: &mut Page, w: Widths, p: Pin, m: Model)
    ensures { Writes page.old page.new (pin_text w p m) }
{
    put_pin_columns(page, w, p, m.name);
    put_type_column(page, m.kind);
    put_level_column(page, m.vinl);
    put_level(page, m.vinh);
    put_selector(page, p, m);
    page.put_byte(b'\n');
}

// A pin that needs no model.
pub fn put_bare_pin(page: &mut Page, w: Widths, p: Pin)
    ensures { Writes page.old page.new (bare_text w p) }
{
    put_pin_columns(page, w, p, p.model);
    page.put_bytes(b"-                -         -\n");
}
