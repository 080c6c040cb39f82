// For C: a cell's number as a double, and those of a row. What is not given writes nothing.
ghost use Rattle.std.specs.Prelude.{◌≡◌, ◌<◌};
ghost use Rattle.decimal.specs.Answers.{cell_in};
ghost use Rattle.doubles.specs.Double.{double_of};
ghost use Rattle.records.specs.Cells.{row_cells};
ghost use Rattle.record_words.specs.Records.{row_size};
ghost use Rattle.table_records.specs.Values.{record_at};
ghost use Rattle.table_records.specs.Records.{row_from};
ghost use Rattle.olhovest.specs.Exported.{row_number};
ghost use Rattle.olhovest.specs.Doubles.{double_number, double_left, value_put, values_from, numbers_of, values_left, answers_left};

use decimal::Cell;
use doubles::CellDouble;
use record_words::ROW_WORDS;
use records::Row;

// The answer for a missing cell: no fault has this number.
const NOT_GIVEN: u8 = 255;

fn answer_number(answer: Result<CellDouble, u8>) -> u8
    ensures { result ≡ double_number answer }
{
    match answer {
        Ok(c) => match c {
            CellDouble::Double(_) => 0,
            CellDouble::Missing => NOT_GIVEN,
        },
        Err(fault) => fault,
    }
}

// 0 and the double of the cell that a word holds; 24, or NOT_GIVEN.
#[unsafe(no_mangle)]
pub extern "C" fn olhovest_double(cell: u64, value: &mut f64) -> u8
    ensures value { result ≡ double_number (double_of (cell_in cell)) }
    ensures value_after { value.new ≡ double_left (double_of (cell_in cell)) value.old }
{
    match doubles::double_in(cell) {
        Ok(c) => match c {
            CellDouble::Double(x) => {
                *value = x;
                0
            }
            CellDouble::Missing => NOT_GIVEN,
        },
        Err(fault) => fault,
    }
}

// The double of one cell of a row, at its place there.
fn put_value(values: &mut [f64; ROW_WORDS], i: usize, answer: Result<CellDouble, u8>)
    requires { i < 4 }
    ensures { values.new ≡ value_put answer i values.old }
{
    match answer {
        Ok(c) => match c {
            CellDouble::Double(x) => {
                values[i] = x;
            }
            CellDouble::Missing => {}
        },
        Err(_) => {}
    }
}

fn put_row(values: &mut [f64; ROW_WORDS], answers: &mut [u8; ROW_WORDS], row: Row)
    ensures values_after { values.new ≡ values_from 0 (row_cells row) values.old }
    ensures answers_after { answers.new ≡ numbers_of (row_cells row) }
{
    let number = doubles::double_of(Cell::Number(row.number));
    let typ = doubles::double_of(row.cells.typ);
    let min = doubles::double_of(row.cells.min);
    let max = doubles::double_of(row.cells.max);
    *answers = [
        answer_number(number),
        answer_number(typ),
        answer_number(min),
        answer_number(max),
    ];
    put_value(values, 0, number);
    put_value(values, 1, typ);
    put_value(values, 2, min);
    put_value(values, 3, max);
}

// The row at a place: 1, and of each cell what olhovest_double answers and writes; or 0 where there is none.
#[unsafe(no_mangle)]
pub extern "C" fn olhovest_row_doubles(
    rows: &[u64],
    place: usize,
    values: &mut [f64; ROW_WORDS],
    answers: &mut [u8; ROW_WORDS],
) -> u8
    ensures value { result ≡ row_number (row_from (record_at row_size rows.now place)) }
    ensures values_after { values.new ≡ values_left (row_from (record_at row_size rows.now place)) values.old }
    ensures answers_after { answers.new ≡ answers_left (row_from (record_at row_size rows.now place)) answers.old }
{
    match table_records::tables::row_in(rows, place) {
        Some(r) => {
            put_row(values, answers, r);
            1
        }
        None => 0,
    }
}
