// A waveform: its record, with its edge, the numbers of its named lines and where its rows lie, and its rows.
ghost use Rattle.std.specs.Prelude.{◌≡◌, ◌≤◌, length};
ghost use Rattle.cut_lines.specs.Cursors.{rest, Placed};
ghost use Rattle.rules.specs.Reading.{under, waveform_in};
ghost use Rattle.records.specs.Stored.{stored};
ghost use Rattle.table_rows.specs.Rows.{rows_at, FillIs};
ghost use Rattle.table_rows.specs.Waveforms.{bare_waveform, fixture_at, fixture_line, with_count};

use crate::rows::put_row;
use crate::{Filled, WaveformFilled};
use cut_lines::Cursor;
use decimal::Cell;
use lines_under::LineNext;
use records::{Edge, Span, Waveform};

// Before its first line.
pub fn bare_waveform(edge: Edge, row: usize) -> Waveform
    ensures { result ≡ bare_waveform edge row }
{
    Waveform {
        edge,
        rfixture: Cell::Missing,
        vfixture: Cell::Missing,
        vmin: Cell::Missing,
        vmax: Cell::Missing,
        cfixture: Cell::Missing,
        lfixture: Cell::Missing,
        rdut: Cell::Missing,
        ldut: Cell::Missing,
        cdut: Cell::Missing,
        rows: Span {
            start: row,
            count: 0,
        },
    }
}

// The number at place n; there are nine places.
fn fixture_at(x: Waveform, n: usize, number: Cell) -> Waveform
    ensures { result ≡ fixture_at x n number }
{
    let mut next = x;
    match n {
        0 => next.rfixture = number,
        1 => next.vfixture = number,
        2 => next.vmin = number,
        3 => next.vmax = number,
        4 => next.cfixture = number,
        5 => next.lfixture = number,
        6 => next.rdut = number,
        7 => next.ldut = number,
        8 => next.cdut = number,
        _ => {}
    }
    next
}

fn with_fixture(x: Waveform, w: &[u8]) -> Waveform
    ensures { result ≡ fixture_line x w.now }
{
    let Some(n) = named_lines::fixture_line(w) else {
        return x;
    };
    let Ok(number) = named_lines::number_line(w) else {
        return x;
    };
    fixture_at(x, n, number)
}

fn with_rows(x: Waveform, count: usize) -> Waveform
    ensures { result ≡ with_count x count }
{
    let mut next = x;
    next.rows.count = count;
    next
}

// The waveform whose lines begin at a cursor, the place of its first row being row; its rows are written at the front of the row store. They are counted
// aside: the record is copied at its named lines only. The line at which the loop ends says where the reading goes on, so it matches both cases; and it writes
// the rows as it goes, which lines_under::fold_lines, whose step hands on a value, does not.
pub fn fill_waveform(
    rows: &mut [u64],
    src: &[u8],
    c: Cursor,
    edge: Edge,
    row: usize,
) -> WaveformFilled
    requires placed { Placed src.now c }
    requires c_in_bounds { length (stored (rows_at src.now c)) ≤ length rows.old }
    ensures waveform_value { result.waveform ≡ waveform_in row edge (under (rest src.now c)) }
    ensures fill_is { FillIs src.now c rows.old rows.new result.filled }
{
    let mut x = bare_waveform(edge, row);
    let mut d = c;
    let mut used: usize = 0;
    loop {
        match lines_under::next_line(src, d) {
            LineNext::Line { start, end, next } => {
                d = next;
                let row = line_cells::row_words(&src[start..end]);
                if row.fault == 0 {
                    put_row(&mut rows[used..], row);
                    used += 4;
                } else {
                    x = with_fixture(x, &src[start..end]);
                }
            }
            LineNext::NoLine { next } => {
                return WaveformFilled {
                    waveform: with_rows(x, used / 4),
                    filled: Filled { words: used, next },
                };
            }
        }
    }
}
