// The header's steps: [IBIS Ver], [File Name], [File Rev] and the five texts.
#![tactic(auto)]

ghost use Rattle.std.specs.Prelude.{◌≡◌, ◌≤◌, length, drop};
ghost use Rattle.records.specs.Flaws.{told, bare, checked};
ghost use Rattle.keywords.specs.Answers.{ArgumentFrom};
ghost use Rattle.rules.specs.Header.{version, header_place, header_flaw, header_part, header_line, header_shut, header_done};

use given::Given;
use keywords::{HeaderPart, HeaderText};
use named_lines::Form;
use records::{LineFault, at_line};
use rules::{Event, HeaderState, Stage, Went};

// [IBIS Ver] at line k, whose argument begins at a place.
pub fn open_header(k: u64, w: &[u8], at: usize) -> Went
    requires { ArgumentFrom w.now at }
    ensures { result ≡ version k w.now }
{
    at_line(named_lines::argument_fault(w, at, Form::Version), k)?;
    let h = HeaderState {
        line: k,
        text: false,
        parts: Given::none(),
    };
    Ok((Stage::InHeader(h), Event::Quiet))
}

// The place of a keyword among the header's.
fn part_place(p: HeaderPart) -> usize
    ensures { result ≡ header_place p }
{
    match p {
        HeaderPart::FileName => 0,
        HeaderPart::FileRev => 1,
        HeaderPart::FreeText(t) => {
            match t {
                HeaderText::Date => 2,
                HeaderText::Source => 3,
                HeaderText::Notes => 4,
                HeaderText::Disclaimer => 5,
                HeaderText::Copyright => 6,
            }
        }
    }
}

// What is wrong with its argument, which begins at a place.
fn part_fault(w: &[u8], at: usize, p: HeaderPart) -> Result<(), LineFault>
    requires { at ≤ length w.now }
    ensures { result ≡ checked (told w.now (header_flaw (drop at w.now) p)) }
{
    match p {
        HeaderPart::FileName => named_lines::argument_fault(w, at, Form::FileName),
        HeaderPart::FileRev => {
            if at < w.len() {
                Ok(())
            } else {
                Err(records::at_fault(10, at))
            }
        }
        HeaderPart::FreeText(_) => Ok(()),
    }
}

// A keyword of the header at line k, whose argument begins at a place.
pub fn header_part(h: HeaderState, k: u64, w: &[u8], at: usize, p: HeaderPart) -> Went
    requires { ArgumentFrom w.now at }
    ensures { result ≡ header_part h k w.now p }
{
    let place = part_place(p);
    let parts = rules::once(h.parts, place, k, part_fault(w, at, p))?;
    let next = HeaderState {
        text: place >= 2,
        parts,
        ..h
    };
    Ok((Stage::InHeader(next), Event::Quiet))
}

// A line of the header that is no keyword line.
pub fn header_line(h: HeaderState, k: u64) -> Went
    ensures { result ≡ header_line h k }
{
    if h.text {
        return Ok((Stage::InHeader(h), Event::Quiet));
    }
    rules::stopped(7, k)
}

// A text that is open ends.
pub fn header_shut(h: HeaderState) -> Went
    ensures { result ≡ header_shut h }
{
    let next = HeaderState { text: false, ..h };
    Ok((Stage::InHeader(next), Event::Quiet))
}

// What the header lacks.
pub fn header_done(h: HeaderState) -> Result<(), LineFault>
    ensures { result ≡ checked (bare (header_done h)) }
{
    if !h.parts.is_given(0) || !h.parts.is_given(1) {
        return Err(records::bare_fault(9));
    }
    Ok(())
}
