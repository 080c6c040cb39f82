// A record's lines of the dump, with those of what is its own in other tables: a component's, a selector's, a model's.
use dump_model_text::{
    model_lines, ramp_lines, row_line, table_line, waveform_lines, waveforms_line,
};
use dump_text::components::{choice_line, component_lines, pin_line, selector_lines};
use program_output::tables::records_in;
use program_output::walks::put_span;
use record_words::{CHOICE_WORDS, PIN_WORDS, ROW_WORDS, WAVEFORM_WORDS};
use records::{Component, Model, Selector, Span, Table};
use table_records::tables::{choice_in, pin_in, waveform_in};
use table_records::values::{number_at, record_at};
use text_buffer::Page;

pub(crate) fn put_component(page: &mut Page, i: usize, c: Component, pins: &[u64]) {
    component_lines(page, i, c);
    put_span(page, c.pins, records_in(pins, PIN_WORDS), |page, k| {
        pin_line(page, pin_in(pins, k));
    });
}

pub(crate) fn put_selector(page: &mut Page, i: usize, s: Selector, choices: &[u64]) {
    selector_lines(page, i, s);
    put_span(
        page,
        s.choices,
        records_in(choices, CHOICE_WORDS),
        |page, k| {
            choice_line(page, choice_in(choices, k));
        },
    );
}

fn put_row(page: &mut Page, words: &[u64]) {
    row_line(
        page,
        number_at(words, 0),
        number_at(words, 1),
        number_at(words, 2),
        number_at(words, 3),
    );
}

fn put_rows(page: &mut Page, rows: &[u64], span: Span) {
    put_span(page, span, records_in(rows, ROW_WORDS), |page, k| {
        put_row(page, record_at(rows, ROW_WORDS, k));
    });
}

fn put_table(page: &mut Page, name: &[u8], t: Table, rows: &[u64]) {
    table_line(page, name, t);
    put_rows(page, rows, t.rows);
}

fn put_waveforms(page: &mut Page, waveforms: &[u64], span: Span, rows: &[u64]) {
    put_span(
        page,
        span,
        records_in(waveforms, WAVEFORM_WORDS),
        |page, k| {
            let w = waveform_in(waveforms, k);
            waveform_lines(page, w);
            put_rows(page, rows, w.rows);
        },
    );
}

pub(crate) fn put_model(page: &mut Page, i: usize, m: Model, waveforms: &[u64], rows: &[u64]) {
    model_lines(page, i, m);
    put_table(page, b"Pulldown", m.pulldown, rows);
    put_table(page, b"Pullup", m.pullup, rows);
    put_table(page, b"GND_Clamp", m.ground, rows);
    put_table(page, b"POWER_Clamp", m.power, rows);
    ramp_lines(page, m.ramp);
    waveforms_line(page, m);
    put_waveforms(page, waveforms, m.waveforms, rows);
}
