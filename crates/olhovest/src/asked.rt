// What C users ask of filled tables in words: a place is a number, and NONE where there is none.
ghost use Rattle.std.specs.Prelude.{◌≡◌};
ghost use Rattle.records.specs.Stored.{row_words};
ghost use Rattle.record_words.specs.Records.{row_size};
ghost use Rattle.table_records.specs.Values.{record_at};
ghost use Rattle.table_records.specs.Records.{row_from};
ghost use Rattle.questions.specs.Searched.{pin_named, model_named};
ghost use Rattle.questions.specs.Chosen.{model_of_pin};
ghost use Rattle.questions.specs.Valued.{values_of_pin};
ghost use Rattle.olhovest.specs.Exported.{place_number, value_words, row_number, row_left};

use decimal::{Cell, word_of};
use questions::PinValues;
use record_words::{ROW_WORDS, TRIPLE_WORDS};
use records::Row;

// Past the end of every table.
const NONE: usize = 18446744073709551615;

const VALUE_WORDS: usize = 3 * TRIPLE_WORDS;

fn place_number(found: Option<usize>) -> usize
    ensures { result ≡ place_number found }
{
    match found {
        Some(k) => k,
        None => NONE,
    }
}

// The pin of that name in a component.
#[unsafe(no_mangle)]
pub extern "C" fn olhovest_find_pin(
    components: &[u64],
    pins: &[u64],
    component: usize,
    name: &[u8],
) -> usize
    ensures { result ≡ place_number (pin_named components.now pins.now component name.now) }
{
    place_number(questions::searches::pin_named(components, pins, component, name))
}

// The model of that name.
#[unsafe(no_mangle)]
pub extern "C" fn olhovest_find_model_2(models: &[u64], name: &[u8]) -> usize
    ensures { result ≡ place_number (model_named models.now name.now) }
{
    place_number(questions::searches::model_named(models, name))
}

// The model chosen for the pin at a place.
#[unsafe(no_mangle)]
pub extern "C" fn olhovest_model_of_pin_2(
    pins: &[u64],
    selectors: &[u64],
    choices: &[u64],
    models: &[u64],
    pin: usize,
) -> usize
    ensures { result ≡ place_number (model_of_pin pins.now selectors.now choices.now models.now pin) }
{
    place_number(questions::choices::model_of_pin(pins, selectors, choices, models, pin))
}

fn value_words(v: PinValues) -> [u64; VALUE_WORDS]
    ensures { result ≡ value_words v }
{
    let r = record_words::tables::triple_words(v.resistance);
    let l = record_words::tables::triple_words(v.inductance);
    let c = record_words::tables::triple_words(v.capacitance);
    [r[0], r[1], r[2], l[0], l[1], l[2], c[0], c[1], c[2]]
}

// The resistance, inductance and capacitance of the pin at a place, each typ, min and max.
#[unsafe(no_mangle)]
pub extern "C" fn olhovest_values_of_pin(
    components: &[u64],
    pins: &[u64],
    pin: usize,
    values: &mut [u64; VALUE_WORDS],
)
    ensures { values.new ≡ value_words (values_of_pin components.now pins.now pin) }
{
    *values = value_words(questions::values::values_of_pin(components, pins, pin));
}

fn row_words(row: Row) -> [u64; ROW_WORDS]
    ensures { result ≡ row_words row }
{
    let cells = record_words::tables::triple_words(row.cells);
    [
        word_of(Cell::Number(row.number)),
        cells[0],
        cells[1],
        cells[2],
    ]
}

// The row at a place: 1 and its words, or 0 where there is none.
#[unsafe(no_mangle)]
pub extern "C" fn olhovest_row_at(rows: &[u64], place: usize, row: &mut [u64; ROW_WORDS]) -> u8
    ensures value { result ≡ row_number (row_from (record_at row_size rows.now place)) }
    ensures row_after { row.new ≡ row_left (row_from (record_at row_size rows.now place)) row.old }
{
    match table_records::tables::row_in(rows, place) {
        Some(r) => {
            *row = row_words(r);
            1
        }
        None => 0,
    }
}
