// The die capacitance of a model and of its structures, in picofarads and in columns.
ghost use Rattle.text_buffer.specs.Pages.{Writes};
ghost use Rattle.explain_text.specs.Summaries.{column};
ghost use Rattle.explain_text.specs.Capacitances.{picofarads, part_text, capacitance_heading, capacitance_row};

use crate::summaries::{put_column, put_gap, put_name_column};
use decimal::Cell;
use records::{Model, Range, Triple};
use text_buffer::Page;

// The typ in picofarads, written out; a missing cell is a dash.
fn put_typ(page: &mut Page, cells: Triple)
    ensures { Writes page.old page.new (picofarads cells.typ) }
{
    match cells.typ {
        Cell::Number(d) => page.put_in_unit(d, 28),
        Cell::Missing => page.put_bytes(b"-"),
    }
}

fn put_typ_column(page: &mut Page, cells: Triple, width: usize)
    ensures { Writes page.old page.new (column width (picofarads cells.typ)) }
{
    let start = page.len();
    put_typ(page, cells);
    put_gap(page, start, width);
}

// The same of a structure; a dash where it is absent.
fn put_part(page: &mut Page, part: Range)
    ensures { Writes page.old page.new (part_text part) }
{
    if part.given {
        put_typ(page, part.cells);
    } else {
        page.put_bytes(b"-");
    }
}

fn put_part_column(page: &mut Page, part: Range, width: usize)
    ensures { Writes page.old page.new (column width (part_text part)) }
{
    let start = page.len();
    put_part(page, part);
    put_gap(page, start, width);
}

// The title and the headings, behind an empty line; width is that of the models' column.
pub fn put_capacitance_heading(page: &mut Page, width: usize)
    ensures { Writes page.old page.new (capacitance_heading width) }
{
    page.put_bytes(b"\ndie capacitance, typ (pF)\n  ");
    put_column(page, b"model", width);
    page.put_bytes(b"C_comp  pullup  pulldown  power clamp  gnd clamp\n");
}

// A model's row.
pub fn put_capacitances(page: &mut Page, width: usize, m: Model)
    ensures { Writes page.old page.new (capacitance_row width m) }
{
    page.put_bytes(b"  ");
    put_name_column(page, m.name, width);
    put_typ_column(page, m.comp, 6);
    put_part_column(page, m.split.pullup, 6);
    put_part_column(page, m.split.pulldown, 8);
    put_part_column(page, m.split.power, 11);
    put_part(page, m.split.ground);
    page.put_byte(b'\n');
}
