// A refusal as a person reads it: where, which fault and what it means; then the line itself; then what to look at, and which keyword may be meant.
ghost use Rattle.std.specs.Prelude.{drop};
ghost use Rattle.lines.specs.Lines.{lines_of};
ghost use Rattle.text_buffer.specs.Pages.{Writes};
ghost use Rattle.refusal_text.specs.Places.{of_line};
ghost use Rattle.refusal_text.specs.Shown.{first_text};
ghost use Rattle.refusal_text.specs.Refusals.{place_text, fault_text, first_suggestion, meant_text, refusal_text};

use crate::hints::put_hint;
use crate::places::skip_lines;
use crate::shown::put_first_line;
use records::Fault;
use text_buffer::Page;

// `:LINE` or `:COLUMN`, or nothing for 0.
fn put_place(page: &mut Page, number: u64)
    ensures { Writes page.old page.new (place_text number) }
{
    if number != 0 {
        page.put_bytes(b":");
        page.put_number(number);
    }
}

fn put_fault(page: &mut Page, name: &[u8], fault: Fault)
    ensures { Writes page.old page.new (fault_text name.now fault) }
{
    page.put_bytes(name);
    put_place(page, fault.line);
    put_place(page, fault.column);
    page.put_bytes(b": fault ");
    page.put_number(fault.number as u64);
    page.put_bytes(b": ");
    fault_texts::put_sentence(page, fault.number);
    page.put_byte(b'\n');
}

// The fault's line, with its mark; nothing where the file has no such line.
fn put_source(page: &mut Page, src: &[u8], fault: Fault)
    ensures { Writes page.old page.new (of_line (first_text fault.column) src.now fault.line) }
{
    if fault.line != 0 {
        let start = skip_lines(src, fault.line - 1);
        put_first_line(page, src, start, fault.column);
    }
}

// The keyword that may be meant in the line that begins at a place; nothing at the end of the file.
fn put_first_suggestion(page: &mut Page, src: &[u8], start: usize)
    ensures { Writes page.old page.new (first_suggestion (lines_of (drop start src.now))) }
{
    if start < src.len() {
        let line = lines::line_at(src, start);
        suggested_keyword::put_suggestion(page, &src[start..line.end]);
    }
}

// The same for a fault's line, if the fault is that nobody has the keyword.
fn put_meant(page: &mut Page, src: &[u8], fault: Fault)
    ensures { Writes page.old page.new (meant_text src.now fault) }
{
    if fault.number == 21 && fault.line != 0 {
        let start = skip_lines(src, fault.line - 1);
        put_first_suggestion(page, src, start);
    }
}

// Why a file of this name was refused; surplus is whether the word at fault is too many.
pub fn put_refusal(page: &mut Page, name: &[u8], src: &[u8], fault: Fault, surplus: bool)
    ensures { Writes page.old page.new (refusal_text name.now src.now fault surplus) }
{
    put_fault(page, name, fault);
    put_source(page, src, fault);
    put_hint(page, src, fault, surplus);
    put_meant(page, src, fault);
    page.put_byte(b'\n');
}
