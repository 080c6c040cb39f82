// A line's words and its name, and the number behind the name.
ghost use Rattle.std.specs.Prelude.{◌≡◌, ◌+◌, ◌^◌, ◌≤◌, ◌<◌, length, drop};
ghost use Rattle.laws.specs.Lists.{front};
ghost use Rattle.decimal.specs.Decimal.{given_cell};
ghost use Rattle.records.specs.Flaws.{told_in, said_there};
ghost use Rattle.name_table.specs.Names.{place_from};
ghost use Rattle.name_table.specs.Listed.{names_in};
ghost use Rattle.line_rules.specs.Fields.{name_of, word_by, exactly, number_line};
ghost use Rattle.named_lines.specs.Places.{is_name_byte, has_equals, FirstWordIs, NameIs};

use decimal::Cell;
use name_table::NameList;
use records::LineFault;
use words::Word;

// The first word of a line; empty if there is none.
pub fn first_word(w: &[u8]) -> Word
    ensures { FirstWordIs w.now result }
{
    words::word_at(w, 0)
}

// A blank or `=` ends a name.
fn name_byte(b: u8) -> bool
    ensures { result ≡ is_name_byte b }
{
    if words::blank(b) {
        return false;
    }
    b != b'='
}

// Where the name that begins at a place ends.
fn skip_name(w: &[u8], at: usize) -> usize
    requires { at ≤ length w.now }
    ensures value { result ≡ at + length (front is_name_byte (drop at w.now)) }
    ensures lower_bound { (at ≤ result) × (result ≤ length w.now) }
{
    words::skip(w, at, name_byte)
}

// The name of a line.
pub fn name_of(w: &[u8]) -> Word
    ensures { NameIs w.now result }
{
    let start = words::skip_blanks(w, 0);
    let end = skip_name(w, start);
    Word {
        start: start,
        end: end,
    }
}

// The place of a line's name in a list.
pub fn named_in(w: &[u8], list: NameList) -> Option<usize>
    ensures { result ≡ place_from 0 (name_of w.now) (names_in list) }
{
    let name = name_of(w);
    let start = name.start;
    let end = name.end;
    name_table::place(&w[start..end], list)
}

// Does `=` stand at a place?
pub fn equals_at(w: &[u8], at: usize) -> bool
    ensures { result ≡ has_equals (drop at w.now) }
{
    if w.len() <= at {
        return false;
    }
    w[at] == b'='
}

// What the word that begins at a place says as a cell, or its fault there.
fn cell_there(place: usize, read: Result<Cell, u8>) -> Result<Cell, LineFault>
    requires { place < 2 ^ 63 }
    ensures { result ≡ said_there place read }
{
    match read {
        Ok(cell) => Ok(cell),
        Err(fault) => Err(records::at_fault(fault, place)),
    }
}

// The number that stands from a place on, one word with nothing behind it.
fn sole_number(w: &[u8], at: usize) -> Result<Cell, LineFault>
    requires { at ≤ length w.now }
    ensures { result ≡ told_in w.now (exactly 1 (word_by given_cell 0 (drop at w.now)) (drop at w.now)) }
{
    let word = words::word_at(w, at);
    let start = word.start;
    let end = word.end;
    let next = words::skip_blanks(w, end);
    if w.len() <= start {
        return Err(records::at_fault(10, next));
    }
    if next < w.len() {
        return Err(records::at_fault(10, next));
    }
    cell_there(start, decimal::given_cell(&w[start..end]))
}

// The number of a line of name, `=` and number.
pub fn number_line(w: &[u8]) -> Result<Cell, LineFault>
    ensures { result ≡ told_in w.now (number_line w.now) }
{
    let name = name_of(w);
    let end = name.end;
    let at = words::skip_blanks(w, end);
    if !equals_at(w, at) {
        return Err(records::at_fault(10, at));
    }
    sole_number(w, at + 1)
}
