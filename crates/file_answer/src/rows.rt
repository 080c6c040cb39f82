// The rows of an open table, in a loop of their own: a row changes how many there are, the last number, and the first and the last typ, and nothing
// else of where the reading stands. What is no row is left to the line's own step.
ghost use Rattle.std.specs.Prelude.{◌≡◌, ◌≤◌};
ghost use Rattle.cut_lines.specs.Cursors.{Placed};
ghost use Rattle.file_answer.specs.Rows.{seen_rows, RowIn, PassedIs, standing_at, Steady, PassesOn};

use crate::{Passed, Standing};
use cut_lines::{Cursor, Next};
use decimal::Decimal;
use line_cells::RowWords;
use noted_events::Tally;
use rules::{ModelList, ModelState, RowsSeen, Stage};

// The row of a line that goes on the table of so many rows, the last of which has this number; else amiss: what is told of it, column and all, the
// line's own step says.
fn row_in(w: &[u8], seen: u64, last: Decimal) -> RowWords
    ensures { RowIn w.now seen last result }
{
    if named_lines::bracketed(w) {
        return line_cells::amiss(10, 0);
    }
    let row = line_cells::row_words(w);
    if row.fault != 0 {
        return row;
    }
    if !model_steps::rising(seen, last, decimal::decimal_in(row.number)) {
        return line_cells::amiss(13, 0);
    }
    row
}

// Behind rows, with what was seen of them.
fn passed(cursor: Cursor, seen: u64, last: Decimal, head: bool, tail: bool, count: usize) -> Passed
    ensures { result ≡ record { cursor = cursor; rows = seen_rows seen last head tail; count = count } }
{
    Passed {
        cursor: cursor,
        rows: RowsSeen {
            count: seen,
            last: last,
            head: head,
            tail: tail,
        },
        count: count,
    }
}

// Passes the rows from a cursor on; the file has n rows before it. What is seen of them stands in variables of its own: one record of it all would
// be copied at every row.
fn pass_rows(src: &[u8], c: Cursor, r: RowsSeen, n: usize) -> Passed
    requires { Placed src.now c × (n ≤ c.at) }
    ensures { PassedIs src.now c r n result }
{
    let mut d = c;
    let mut seen = r.count;
    let mut last = r.last;
    let mut head = r.head;
    let mut tail = r.tail;
    let mut count = n;
    loop {
        match cut_lines::next_text(src, d) {
            Next::Text {
                line,
                start,
                end,
                next,
            } => {
                let row = row_in(&src[start..end], seen, last);
                if row.fault != 0 {
                    return passed(d, seen, last, head, tail, count);
                }
                d = next;
                last = decimal::decimal_in(row.number);
                tail = decimal::holds_number(row.typ);
                head = model_steps::head_after(seen, head, tail);
                seen = model_steps::one_more(seen);
                count += 1;
            }
            Next::Change { line, fault, next } => return passed(d, seen, last, head, tail, count),
            Next::Out { line } => return passed(d, seen, last, head, tail, count),
        }
    }
}

// The model's list is another, and rows of it are passed.
fn stands_behind(t: Tally, m: ModelState, list: ModelList, p: Passed) -> Standing
    ensures { result ≡ standing_at m list t p }
{
    let mut counts = t.counts;
    counts.rows = p.count;
    let cursor = p.cursor;
    Standing {
        stage: Stage::InModel(model_steps::with_list(m, list)),
        cursor: cursor,
        tally: Tally {
            names: t.names,
            counts: counts,
        },
    }
}

// Behind the rows of the table that is open; where none is, all stays.
pub(crate) fn behind_rows(src: &[u8], x: Standing) -> Standing
    requires { Steady src.now x }
    ensures { PassesOn src.now x result }
{
    let stage = x.stage;
    let Stage::InModel(m) = stage else {
        return x;
    };
    let cursor = x.cursor;
    let tally = x.tally;
    let n = tally.counts.rows;
    let list = m.list;
    match list {
        ModelList::CurrentRows { line, rows } => {
            let p = pass_rows(src, cursor, rows, n);
            let passed = p.rows;
            let behind = ModelList::CurrentRows {
                line: line,
                rows: passed,
            };
            stands_behind(tally, m, behind, p)
        }
        ModelList::WaveformRows { line, given, rows } => {
            let p = pass_rows(src, cursor, rows, n);
            let passed = p.rows;
            let behind = ModelList::WaveformRows {
                line: line,
                given: given,
                rows: passed,
            };
            stands_behind(tally, m, behind, p)
        }
        ModelList::ModelFirst => x,
        ModelList::ModelShut => x,
        ModelList::RampLines { line, given } => x,
    }
}
