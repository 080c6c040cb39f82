// The line as a person sees it: safe for a screen, and a mark under the column told.
ghost use Rattle.std.specs.Prelude.{◌≡◌, map, take, drop};
ghost use Rattle.lines.specs.Lines.{lines_of};
ghost use Rattle.text_buffer.specs.Pages.{Writes};
ghost use Rattle.refusal_text.specs.Shown.{visible, blank_for, shown_as, visible_text, mark_text, marked_text, first_text};

use text_buffer::Page;

// A byte by itself, or the blank that is as wide.
#[derive(Clone, Copy)]
pub(crate) enum Showing {
    Plainly,
    AsBlank,
}

// A byte that document 01 forbids as a question mark.
fn visible_byte(b: u8) -> u8
    ensures { result ≡ visible b }
{
    if b == b'\t' {
        return b;
    }
    if b < 0x20 {
        return b'?';
    }
    if 0x7E < b { b'?' } else { b }
}

// The blank that is as wide: a tab for a tab.
fn blank_byte(b: u8) -> u8
    ensures { result ≡ blank_for b }
{
    if b == b'\t' { b } else { b' ' }
}

fn shown_as(how: Showing, b: u8) -> u8
    ensures { result ≡ shown_as how b }
{
    match how {
        Showing::Plainly => visible_byte(b),
        Showing::AsBlank => blank_byte(b),
    }
}

pub(crate) fn put_shown(page: &mut Page, how: Showing, text: &[u8])
    ensures { Writes page.old page.new (map (shown_as how) text.now) }
{
    for &byte in text {
        page.put_byte(shown_as(how, byte));
    }
}

// What stands past the 120th character is two points.
fn put_cut(page: &mut Page, line: &[u8])
    ensures { Writes page.old page.new (visible_text line.now) }
{
    if 120 < line.len() {
        put_shown(page, Showing::Plainly, &line[0..120]);
        page.put_bytes(b"..");
    } else {
        put_shown(page, Showing::Plainly, line);
    }
}

// Blanks as wide as the first characters of the line, as many as count says; as all if it has fewer.
fn put_blanks(page: &mut Page, line: &[u8], count: u64)
    ensures { Writes page.old page.new (map blank_for (take count line.now)) }
{
    if count < line.len() as u64 {
        put_shown(page, Showing::AsBlank, &line[..count as usize]);
    } else {
        put_shown(page, Showing::AsBlank, line);
    }
}

// The mark under a column; nothing for column 0.
fn put_mark(page: &mut Page, line: &[u8], column: u64)
    ensures { Writes page.old page.new (mark_text line.now column) }
{
    if column != 0 {
        page.put_bytes(b"  ");
        put_blanks(page, line, column - 1);
        page.put_bytes(b"^\n");
    }
}

fn put_marked(page: &mut Page, line: &[u8], column: u64)
    ensures { Writes page.old page.new (marked_text column line.now) }
{
    page.put_bytes(b"> ");
    put_cut(page, line);
    page.put_byte(b'\n');
    put_mark(page, line, column);
}

// The line that begins at a place; nothing at the end of the file.
pub(crate) fn put_first_line(page: &mut Page, src: &[u8], start: usize, column: u64)
    ensures { Writes page.old page.new (first_text column (lines_of (drop start src.now))) }
{
    if start < src.len() {
        let line = lines::line_at(src, start);
        put_marked(page, &src[start..line.end], column);
    }
}
