// The record at a place of each table.
ghost use Rattle.std.specs.Prelude.{◌≡◌};
ghost use Rattle.record_words.specs.Records.{component_size, pin_size, selector_size, choice_size, model_size, waveform_size, row_size};
ghost use Rattle.table_records.specs.Values.{record_at};
ghost use Rattle.table_records.specs.Records.{component_from, pin_from, selector_from, choice_from, model_from, waveform_from, as_row, row_from};

use crate::parts::{
    name_at, name_from, ramp_from, range_from, span_at, split_from, table_at, text_from, triple_at,
};
use crate::values::{
    cell_at, edge_in, enable_in, location_in, number_at, polarity_in, record_at, type_in,
    words_from,
};
use decimal::Cell;
use record_words::{
    CHOICE_WORDS, COMPONENT_WORDS, MODEL_WORDS, PIN_WORDS, ROW_WORDS, SELECTOR_WORDS,
    WAVEFORM_WORDS,
};
use records::{Choice, Component, Model, Pin, Row, Selector, Triple, Waveform};

fn component_from(words: &[u64]) -> Component
    ensures { result ≡ component_from words.now }
{
    Component {
        section: number_at(words, 0) as usize,
        name: name_at(words, 1),
        si: location_in(number_at(words, 7)),
        timing: location_in(number_at(words, 8)),
        manufacturer: name_at(words, 9),
        resistance: triple_at(words, 15),
        inductance: triple_at(words, 18),
        capacitance: triple_at(words, 21),
        pins: span_at(words, 24),
    }
}

pub fn component_in(components: &[u64], k: usize) -> Component
    ensures { result ≡ component_from (record_at component_size components.now k) }
{
    component_from(record_at(components, COMPONENT_WORDS, k))
}

fn pin_from(words: &[u64]) -> Pin
    ensures { result ≡ pin_from words.now }
{
    Pin {
        name: name_from(words),
        signal: name_at(words, 6),
        model: name_at(words, 12),
        resistance: cell_at(words, 18),
        inductance: cell_at(words, 19),
        capacitance: cell_at(words, 20),
    }
}

pub fn pin_in(pins: &[u64], k: usize) -> Pin
    ensures { result ≡ pin_from (record_at pin_size pins.now k) }
{
    pin_from(record_at(pins, PIN_WORDS, k))
}

fn selector_from(words: &[u64]) -> Selector
    ensures { result ≡ selector_from words.now }
{
    Selector {
        section: number_at(words, 0) as usize,
        name: name_at(words, 1),
        choices: span_at(words, 7),
    }
}

pub fn selector_in(selectors: &[u64], k: usize) -> Selector
    ensures { result ≡ selector_from (record_at selector_size selectors.now k) }
{
    selector_from(record_at(selectors, SELECTOR_WORDS, k))
}

fn choice_from(words: &[u64]) -> Choice
    ensures { result ≡ choice_from words.now }
{
    Choice {
        model: name_from(words),
        description: text_from(words_from(words, 6)),
    }
}

pub fn choice_in(choices: &[u64], k: usize) -> Choice
    ensures { result ≡ choice_from (record_at choice_size choices.now k) }
{
    choice_from(record_at(choices, CHOICE_WORDS, k))
}

fn waveform_from(words: &[u64]) -> Waveform
    ensures { result ≡ waveform_from words.now }
{
    Waveform {
        edge: edge_in(number_at(words, 0)),
        rfixture: cell_at(words, 1),
        vfixture: cell_at(words, 2),
        vmin: cell_at(words, 3),
        vmax: cell_at(words, 4),
        cfixture: cell_at(words, 5),
        lfixture: cell_at(words, 6),
        rdut: cell_at(words, 7),
        ldut: cell_at(words, 8),
        cdut: cell_at(words, 9),
        rows: span_at(words, 10),
    }
}

pub fn waveform_in(waveforms: &[u64], k: usize) -> Waveform
    ensures { result ≡ waveform_from (record_at waveform_size waveforms.now k) }
{
    waveform_from(record_at(waveforms, WAVEFORM_WORDS, k))
}

fn model_from(words: &[u64]) -> Model
    ensures { result ≡ model_from words.now }
{
    Model {
        section: number_at(words, 0) as usize,
        name: name_at(words, 1),
        kind: type_in(number_at(words, 7)),
        polarity: polarity_in(number_at(words, 8)),
        enable: enable_in(number_at(words, 9)),
        comp: triple_at(words, 10),
        split: split_from(words_from(words, 13)),
        vinl: cell_at(words, 29),
        vinh: cell_at(words, 30),
        vmeas: cell_at(words, 31),
        cref: cell_at(words, 32),
        rref: cell_at(words, 33),
        vref: cell_at(words, 34),
        voltage: triple_at(words, 35),
        temperature: range_from(words_from(words, 38)),
        pulldown: table_at(words, 42),
        pullup: table_at(words, 45),
        ground: table_at(words, 48),
        power: table_at(words, 51),
        ramp: ramp_from(words_from(words, 54)),
        waveforms: span_at(words, 68),
    }
}

pub fn model_in(models: &[u64], k: usize) -> Model
    ensures { result ≡ model_from (record_at model_size models.now k) }
{
    model_from(record_at(models, MODEL_WORDS, k))
}

fn as_row(number: Cell, cells: Triple) -> Option<Row>
    ensures { result ≡ as_row number cells }
{
    match number {
        Cell::Number(d) => Some(Row {
            number: d,
            cells: cells,
        }),
        Cell::Missing => None,
    }
}

fn row_from(words: &[u64]) -> Option<Row>
    ensures { result ≡ row_from words.now }
{
    as_row(cell_at(words, 0), triple_at(words, 1))
}

pub fn row_in(rows: &[u64], k: usize) -> Option<Row>
    ensures { result ≡ row_from (record_at row_size rows.now k) }
{
    row_from(record_at(rows, ROW_WORDS, k))
}
