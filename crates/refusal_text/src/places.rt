// Where a line of a file lies, and what cutting leaves of it.
ghost use Rattle.std.specs.Prelude.{◌≡◌, ◌≤◌, length};
ghost use Rattle.lines.specs.Places.{first_bytes};
ghost use Rattle.refusal_text.specs.Places.{place_behind, of_line, text_of_line, Lies};

use cut_lines::{Cursor, Next};
use lines::LineReader;
use words::Word;

// Where a reader stands that has handed out so many lines: one reader hands out all of them.
fn pass_lines(src: &[u8], before: u64) -> usize
    ensures { result ≡ place_behind src.now before }
{
    let mut reader = LineReader::new(src, 0);
    for _ in 0..before {
        reader.next();
    }
    reader.at
}

// The same. A file has no more lines than bytes.
pub fn skip_lines(src: &[u8], before: u64) -> usize
    ensures value { result ≡ place_behind src.now before }
    ensures upper_bound { result ≤ length src.now }
{
    if src.len() as u64 <= before {
        return src.len();
    }
    pass_lines(src, before)
}

// Where a line lies, whole.
fn whole_line(src: &[u8], line: u64) -> Word
    ensures { Lies src.now (of_line first_bytes src.now line) result }
{
    if line == 0 {
        return Word { start: 0, end: 0 };
    }
    let start = skip_lines(src, line - 1);
    let whole = lines::line_at(src, start);
    Word {
        start,
        end: whole.end,
    }
}

// Where lies what cutting leaves of a line, by the comment character in force there.
pub(crate) fn find_text(src: &[u8], number: u64) -> Word
    ensures { Lies src.now (text_of_line src.now number) result }
{
    let mut cursor = Cursor::first();
    loop {
        match cut_lines::next_text(src, cursor) {
            Next::Text {
                line,
                start,
                end,
                next,
            } => {
                if line == number {
                    return Word { start, end };
                }
                cursor = next;
            }
            Next::Change { line, fault, next } => {
                if line == number {
                    return whole_line(src, number);
                }
                cursor = next;
            }
            Next::Out { line } => return Word { start: 0, end: 0 },
        }
    }
}
