// A cell's line: the double's 64 bits, `NA`, or 24. And the lines of three cells.
ghost use Rattle.text_buffer.specs.Pages.{Writes};
ghost use Rattle.doubles.specs.Double.{double_of};
ghost use Rattle.records.specs.Cells.{triple_cells, range_cells};
ghost use Rattle.double_text.specs.Lines.{answer_text, cell_line, cell_lines};

use decimal::Cell;
use doubles::{CellDouble, double_of};
use records::{Range, Triple};
use text_buffer::Page;

fn put_double(page: &mut Page, cell: Cell)
    ensures { Writes page.old page.new (answer_text (double_of cell)) }
{
    match double_of(cell) {
        Ok(read) => match read {
            CellDouble::Double(x) => page.put_hexadecimal(f64::to_bits(x), 16),
            CellDouble::Missing => page.put_bytes(b"NA"),
        },
        Err(fault) => page.put_number(fault as u64),
    }
}

pub fn double_line(page: &mut Page, cell: Cell)
    ensures { Writes page.old page.new (cell_line cell) }
{
    put_double(page, cell);
    page.put_byte(b'\n');
}

pub(crate) fn triple_lines(page: &mut Page, t: Triple)
    ensures { Writes page.old page.new (cell_lines (triple_cells t)) }
{
    double_line(page, t.typ);
    double_line(page, t.min);
    double_line(page, t.max);
}

// Of what is absent there are none.
pub(crate) fn range_lines(page: &mut Page, range: Range)
    ensures { Writes page.old page.new (cell_lines (range_cells range)) }
{
    if range.given {
        triple_lines(page, range.cells);
    }
}
