// The texts of a file, one after another: the lines left after cutting, and the [Comment Char] lines.
#![tactic(auto)]

ghost use Rattle.std.specs.Prelude.{◌≡◌, ◌+◌, ◌^◌, ◌≤◌, ◌<◌, length, drop};
ghost use Rattle.laws.specs.Lists.{among};
ghost use Rattle.laws.specs.Said.{or_else};
ghost use Rattle.records.specs.Flaws.{told_in, line_fault_in, at_place};
ghost use Rattle.cut_lines.specs.Change.{is_change, change_of, change_to, marks};
ghost use Rattle.cut_lines.specs.Cursors.{first_cursor, Placed, NextIs};
ghost use Rattle.cut_lines.specs.declared.Next.TheVariants.{Change};

use records::LineFault;

// Where a reading stands: the next line's place and number, and the comment character in force there.
#[derive(Clone, Copy)]
pub struct Cursor {
    pub at: usize,
    pub line: u64,
    pub comment: u8,
}

// The next text: what is left of a line; a [Comment Char] line with its fault, number 0 for none, as `change` of specs/Texts.antt has it; or the
// line after the last.
#[derive(Clone, Copy)]
pub enum Next {
    Text {
        line: u64,
        start: usize,
        end: usize,
        next: Cursor,
    },
    Change {
        line: u64,
        fault: LineFault,
        next: Cursor,
    },
    Out {
        line: u64,
    },
}

impl Cursor {
    // At the first line, with the comment character that holds until changed.
    pub fn first() -> Self
        ensures { result ≡ first_cursor }
    {
        Cursor {
            at: 0,
            line: 1,
            comment: b'|',
        }
    }
}

// A line that changes the comment character, or means to.
fn changes(w: &[u8]) -> bool
    ensures { result ≡ is_change w.now }
{
    if w.len() == 0 {
        return false;
    }
    if w[0] != b'[' {
        return false;
    }
    let stop = words::find(w, 1, b']');
    if w.len() <= stop {
        return false;
    }
    keywords::same_spelled(&w[1..stop], b"comment_char")
}

fn is_mark(b: u8) -> bool
    ensures { result ≡ among b marks }
{
    b"!\"#$%&'()*,:;<>?@\\^`{|}~".contains(&b)
}

// Fault 10 at a place of the line.
fn wrong_at(place: usize) -> Result<u8, LineFault>
    requires { place < 2 ^ 63 }
    ensures { result ≡ Err (at_place 10 place) }
{
    Err(records::at_fault(10, place))
}

// What the argument of a [Comment Char] line says: it lies from a place on.
fn change_to(w: &[u8], at: usize) -> Result<u8, LineFault>
    requires { at ≤ length w.now }
    ensures { result ≡ told_in w.now (change_to (drop at w.now)) }
{
    if w.len() <= at {
        return wrong_at(at);
    }
    let x = w[at];
    if !is_mark(x) {
        return wrong_at(at);
    }
    let end = words::skip_ink(w, at + 1);
    if !words::same(&w[at + 1..end], b"_char") {
        return wrong_at(at);
    }
    let behind = words::skip_blanks(w, end);
    if w.len() <= behind {
        return Ok(x);
    }
    if w[behind] == x {
        return Ok(x);
    }
    wrong_at(behind)
}

// What a [Comment Char] line says.
fn change_of(w: &[u8]) -> Result<u8, LineFault>
    ensures { result ≡ told_in w.now (change_of w.now) }
{
    if w.len() == 0 {
        return Err(records::bare_fault(5));
    }
    let stop = words::find(w, 1, b']');
    if !keywords::closed_at(w, stop) {
        return Err(records::bare_fault(5));
    }
    change_to(w, words::skip_blanks(w, stop + 1))
}

// A [Comment Char] line and the cursor behind it: a good one's character holds from there on.
fn changed(line: u64, behind: usize, comment: u8, said: Result<u8, LineFault>) -> Next
    requires { line < 2 ^ 63 }
    ensures { result ≡ Change line (line_fault_in said) (record { at = behind; line = line + 1; comment = or_else comment said }) }
{
    let (fault, comment) = match said {
        Ok(x) => (records::bare_fault(0), x),
        Err(f) => (f, comment),
    };
    let next = Cursor {
        at: behind,
        line: line + 1,
        comment,
    };
    Next::Change { line, fault, next }
}

// The next text from a line's place and number on. They are numbers by themselves, so that they stay in registers; a turn is a line, not a byte.
fn text_from(s: &[u8], from: usize, number: u64, comment: u8) -> Next
    requires { Placed s.now (record { at = from; line = number; comment = comment }) }
    ensures { NextIs s.now (record { at = from; line = number; comment = comment }) result }
{
    let mut at = from;
    let mut line = number;
    while at < s.len() {
        let l = lines::cut_line(s, at, comment);
        let end = l.whole.end;
        let w = &s[at..end];
        if changes(w) {
            return changed(line, l.whole.next, comment, change_of(w));
        }
        if at < l.cut {
            let next = Cursor {
                at: l.whole.next,
                line: line + 1,
                comment,
            };
            return Next::Text {
                line,
                start: at,
                end: l.cut,
                next,
            };
        }
        at = l.whole.next;
        line += 1;
    }
    Next::Out { line }
}

// The next text.
pub fn next_text(s: &[u8], c: Cursor) -> Next
    requires { Placed s.now c }
    ensures { NextIs s.now c result }
{
    text_from(s, c.at, c.line, c.comment)
}
