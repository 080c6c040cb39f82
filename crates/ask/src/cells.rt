// The lines of a record's cells, with those of what is its own in other tables: a component's, a model's.
use double_text::{component_lines, model_lines, pin_lines, ramp_lines, row_lines, waveform_lines};
use program_output::tables::records_in;
use program_output::walks::put_span;
use record_words::{PIN_WORDS, ROW_WORDS, WAVEFORM_WORDS};
use records::{Component, Model, Span};
use table_records::tables::{pin_in, waveform_in};
use table_records::values::{number_at, record_at};
use text_buffer::Page;

pub(crate) fn put_component(page: &mut Page, c: Component, pins: &[u64]) {
    component_lines(page, c);
    put_span(page, c.pins, records_in(pins, PIN_WORDS), |page, k| {
        pin_lines(page, pin_in(pins, k));
    });
}

fn put_row(page: &mut Page, words: &[u64]) {
    row_lines(
        page,
        number_at(words, 0),
        number_at(words, 1),
        number_at(words, 2),
        number_at(words, 3),
    );
}

// A table that is absent has no rows.
fn put_rows(page: &mut Page, rows: &[u64], span: Span) {
    put_span(page, span, records_in(rows, ROW_WORDS), |page, k| {
        put_row(page, record_at(rows, ROW_WORDS, k));
    });
}

fn put_waveforms(page: &mut Page, waveforms: &[u64], span: Span, rows: &[u64]) {
    put_span(
        page,
        span,
        records_in(waveforms, WAVEFORM_WORDS),
        |page, k| {
            let w = waveform_in(waveforms, k);
            waveform_lines(page, w);
            put_rows(page, rows, w.rows);
        },
    );
}

pub(crate) fn put_model(page: &mut Page, m: Model, waveforms: &[u64], rows: &[u64]) {
    model_lines(page, m);
    put_rows(page, rows, m.pulldown.rows);
    put_rows(page, rows, m.pullup.rows);
    put_rows(page, rows, m.ground.rows);
    put_rows(page, rows, m.power.rows);
    ramp_lines(page, m.ramp);
    put_waveforms(page, waveforms, m.waveforms, rows);
}
