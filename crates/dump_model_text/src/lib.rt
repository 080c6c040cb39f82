// The dump's lines of a model: its own, and those of its tables, ramp, waveforms and rows.
#![tactic(auto, using(text_buffer::proofs::Laws::put_append), unfolding(crate::specs::Models::type_line, crate::specs::Models::head_lines, crate::specs::Models::split_lines, crate::specs::Models::level_lines, crate::specs::Models::range_lines, crate::specs::Models::model_dump, crate::specs::Models::table_text, crate::specs::Models::table_line, crate::specs::Models::slopes_dump, crate::specs::Models::ramp_dump, crate::specs::Models::waveforms_line, crate::specs::Models::fixture_lines, crate::specs::Models::device_lines, crate::specs::Models::waveform_lines, crate::specs::Models::word_text, crate::specs::Models::row_dump,))]

ghost use Rattle.text_buffer.specs.Pages.{Writes};
ghost use Rattle.dump_model_text.specs.Models.{type_line, polarity_line, enable_line, head_lines, split_lines, level_lines, range_lines, model_dump, table_text, table_line, slope_text, slopes_dump, ramp_dump, waveforms_line, edge_text, fixture_lines, device_lines, waveform_lines, word_text, row_dump};

use decimal::cell_in;
use dump_text::labelled::{cell_line, count_line, range_line, section_line, triple_line};
use records::{
    Edge, Enable, Model, ModelType, Polarity, RampCell, RampTable, RampTriple, Split, Table,
    Waveform,
};
use text_buffer::Page;
use type_text::put_type;

fn type_line(page: &mut Page, kind: ModelType)
    ensures { Writes page.old page.new (type_line kind) }
{
    page.put_bytes(b"MODEL_TYPE ");
    put_type(page, kind);
    page.put_byte(b'\n');
}

fn put_polarity(page: &mut Page, polarity: Polarity)
    ensures { Writes page.old page.new (polarity_line (Some polarity)) }
{
    match polarity {
        Polarity::Inverting => page.put_bytes(b"POLARITY Inverting\n"),
        Polarity::NonInverting => page.put_bytes(b"POLARITY Non-Inverting\n"),
    }
}

fn polarity_line(page: &mut Page, polarity: Option<Polarity>)
    ensures { Writes page.old page.new (polarity_line polarity) }
{
    match polarity {
        Some(p) => put_polarity(page, p),
        None => page.put_bytes(b"POLARITY -\n"),
    }
}

fn put_enable(page: &mut Page, enable: Enable)
    ensures { Writes page.old page.new (enable_line (Some enable)) }
{
    match enable {
        Enable::ActiveHigh => page.put_bytes(b"ENABLE Active-High\n"),
        Enable::ActiveLow => page.put_bytes(b"ENABLE Active-Low\n"),
    }
}

fn enable_line(page: &mut Page, enable: Option<Enable>)
    ensures { Writes page.old page.new (enable_line enable) }
{
    match enable {
        Some(e) => put_enable(page, e),
        None => page.put_bytes(b"ENABLE -\n"),
    }
}

fn head_lines(page: &mut Page, index: usize, m: Model)
    ensures { Writes page.old page.new (head_lines index m) }
{
    section_line(page, b"MODEL", index, m.name);
    type_line(page, m.kind);
    polarity_line(page, m.polarity);
    enable_line(page, m.enable);
    triple_line(page, b"C_COMP", m.comp);
}

fn split_lines(page: &mut Page, split: Split)
    ensures { Writes page.old page.new (split_lines split) }
{
    range_line(page, b"C_COMP_PULLUP", split.pullup);
    range_line(page, b"C_COMP_PULLDOWN", split.pulldown);
    range_line(page, b"C_COMP_POWER_CLAMP", split.power);
    range_line(page, b"C_COMP_GND_CLAMP", split.ground);
}

fn level_lines(page: &mut Page, m: Model)
    ensures { Writes page.old page.new (level_lines m) }
{
    cell_line(page, b"VINL", m.vinl);
    cell_line(page, b"VINH", m.vinh);
    cell_line(page, b"VMEAS", m.vmeas);
    cell_line(page, b"CREF", m.cref);
    cell_line(page, b"RREF", m.rref);
    cell_line(page, b"VREF", m.vref);
}

fn range_lines(page: &mut Page, m: Model)
    ensures { Writes page.old page.new (range_lines m) }
{
    triple_line(page, b"VOLTAGE_RANGE", m.voltage);
    range_line(page, b"TEMPERATURE_RANGE", m.temperature);
}

// A model's lines before its tables.
pub fn model_lines(page: &mut Page, index: usize, m: Model)
    ensures { Writes page.old page.new (model_dump index m) }
{
    head_lines(page, index, m);
    split_lines(page, m.split);
    level_lines(page, m);
    range_lines(page, m);
}

fn put_table(page: &mut Page, table: Table)
    ensures { Writes page.old page.new (table_text table) }
{
    if table.given {
        page.put_count(table.rows.count);
    } else {
        page.put_bytes(b" -");
    }
}

// A current table's line, by the table's name; its rows follow.
pub fn table_line(page: &mut Page, name: &[u8], table: Table)
    ensures { Writes page.old page.new (table_line name.now table) }
{
    page.put_bytes(b"TABLE ");
    page.put_bytes(name);
    put_table(page, table);
    page.put_byte(b'\n');
}

fn put_slope(page: &mut Page, slope: RampCell)
    ensures { Writes page.old page.new (slope_text slope) }
{
    match slope {
        RampCell::Ratio { dividend, divisor } => {
            page.put_byte(b' ');
            page.put_decimal(dividend);
            page.put_byte(b'/');
            page.put_decimal(divisor);
        }
        RampCell::Absent => page.put_bytes(b" NA"),
    }
}

fn slopes_line(page: &mut Page, label: &[u8], slopes: RampTriple)
    ensures { Writes page.old page.new (slopes_dump label.now slopes) }
{
    page.put_bytes(label);
    put_slope(page, slopes.typ);
    put_slope(page, slopes.min);
    put_slope(page, slopes.max);
    page.put_byte(b'\n');
}

pub fn ramp_lines(page: &mut Page, ramp: RampTable)
    ensures { Writes page.old page.new (ramp_dump ramp) }
{
    if ramp.given {
        page.put_bytes(b"RAMP +\n");
        slopes_line(page, b"DVDT_R", ramp.rise);
        slopes_line(page, b"DVDT_F", ramp.fall);
        cell_line(page, b"R_LOAD", ramp.load);
    } else {
        page.put_bytes(b"RAMP -\n");
    }
}

// How many waveforms a model has; they follow.
pub fn waveforms_line(page: &mut Page, m: Model)
    ensures { Writes page.old page.new (waveforms_line m) }
{
    count_line(page, b"WAVEFORMS", m.waveforms.count);
}

fn put_edge(page: &mut Page, edge: Edge)
    ensures { Writes page.old page.new (edge_text edge) }
{
    match edge {
        Edge::Rising => page.put_bytes(b"WAVEFORM Rising"),
        Edge::Falling => page.put_bytes(b"WAVEFORM Falling"),
    }
}

fn fixture_lines(page: &mut Page, w: Waveform)
    ensures { Writes page.old page.new (fixture_lines w) }
{
    cell_line(page, b"R_FIXTURE", w.rfixture);
    cell_line(page, b"V_FIXTURE", w.vfixture);
    cell_line(page, b"V_FIXTURE_MIN", w.vmin);
    cell_line(page, b"V_FIXTURE_MAX", w.vmax);
    cell_line(page, b"C_FIXTURE", w.cfixture);
    cell_line(page, b"L_FIXTURE", w.lfixture);
}

fn device_lines(page: &mut Page, w: Waveform)
    ensures { Writes page.old page.new (device_lines w) }
{
    cell_line(page, b"R_DUT", w.rdut);
    cell_line(page, b"L_DUT", w.ldut);
    cell_line(page, b"C_DUT", w.cdut);
}

// The rows follow, a line each.
pub fn waveform_lines(page: &mut Page, w: Waveform)
    ensures { Writes page.old page.new (waveform_lines w) }
{
    put_edge(page, w.edge);
    count_line(page, b"", w.rows.count);
    fixture_lines(page, w);
    device_lines(page, w);
}

// A space and the cell that a word of the row store holds.
fn put_word(page: &mut Page, word: u64)
    ensures { Writes page.old page.new (word_text word) }
{
    page.put_next_cell(cell_in(word));
}

// A row of the row store: its number and its three cells, a word each.
pub fn row_line(page: &mut Page, number: u64, typ: u64, min: u64, max: u64)
    ensures { Writes page.old page.new (row_dump number typ min max) }
{
    page.put_bytes(b"ROW");
    put_word(page, number);
    put_word(page, typ);
    put_word(page, min);
    put_word(page, max);
    page.put_byte(b'\n');
}
