// The rows of one table, written into the row store, four words each.
ghost use Rattle.std.specs.Prelude.{◌≡◌, ◌≤◌, length};
ghost use Rattle.cut_lines.specs.Cursors.{Placed};
ghost use Rattle.records.specs.Stored.{stored, over};
ghost use Rattle.table_rows.specs.Rows.{rows_at, four_words, FillIs};

use crate::Filled;
use cut_lines::Cursor;
use line_cells::RowWords;
use lines_under::LineNext;

// Writes one row at the front of the row store.
pub(crate) fn put_row(rows: &mut [u64], r: RowWords)
    requires { 4 ≤ length rows.old }
    ensures { rows.new ≡ over rows.old (four_words r) }
{
    rows[0] = r.number;
    rows[1] = r.typ;
    rows[2] = r.min;
    rows[3] = r.max;
}

// Writes the rows of the table whose lines begin at a cursor at the front of the row store. The loop matches both cases of a line, and writes as it goes, for the
// reason at fill_waveform.
pub fn fill_table(rows: &mut [u64], src: &[u8], c: Cursor) -> Filled
    requires placed { Placed src.now c }
    requires c_in_bounds { length (stored (rows_at src.now c)) ≤ length rows.old }
    ensures { FillIs src.now c rows.old rows.new result }
{
    let mut d = c;
    let mut used: usize = 0;
    loop {
        match lines_under::next_line(src, d) {
            LineNext::Line { start, end, next } => {
                d = next;
                let row = line_cells::row_words(&src[start..end]);
                if row.fault == 0 {
                    put_row(&mut rows[used..], row);
                    used += 4;
                }
            }
            LineNext::NoLine { next } => {
                return Filled { words: used, next };
            }
        }
    }
}
