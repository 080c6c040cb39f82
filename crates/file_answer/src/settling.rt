// Bytes, lines, names, last checks, one after the other: the first fault ends the reading.
ghost use Rattle.std.specs.Prelude.{◌≡◌, ◌≤◌, length};
ghost use Rattle.lines.specs.Lines.{bytes_fault};
ghost use Rattle.cut_lines.specs.Cursors.{rest, first_cursor};
ghost use Rattle.note_words.specs.Store.{store_length};
ghost use Rattle.component_records.specs.Views.{header_laid};
ghost use Rattle.file_answer.specs.Answered.{refusal, answer_of};
ghost use Rattle.file_answer.specs.Sorted.{Outlines, Loads, ReadWhole};

use crate::reading::scan;
use cut_lines::Cursor;
use note_words::STORE_LENGTH;
use noted_events::Tally;
use records::{Answer, Counts, Fault, Header, Lending, Lengths, MOST_ROWS};

fn refused(f: Fault) -> Answer
    ensures { result ≡ refusal f }
{
    Answer {
        verdict: Err(f),
        counts: Counts {
            components: 0,
            pins: 0,
            selectors: 0,
            choices: 0,
            models: 0,
            waveforms: 0,
            rows: 0,
        },
        header: Header {
            name: records::words_of(b""),
            revision: records::words_of(b""),
        },
    }
}

// A fault that tells no column.
fn refused_at(number: u8, line: u64) -> Answer
    ensures { result ≡ refusal (record { number = number; line = line; column = 0 }) }
{
    refused(Fault {
        number: number,
        line: line,
        column: 0,
    })
}

fn accepted(src: &[u8], c: Counts) -> Answer
    ensures { result ≡ record { verdict = (Ok tt); counts = c; header = header_laid (rest src.now first_cursor) } }
{
    Answer {
        verdict: Ok(()),
        counts: c,
        header: component_records::header_of(src, Cursor::first()),
    }
}

// The last checks, once all lines are read and no name is used twice.
fn last_checks(src: &[u8], l: Lengths, t: Tally, notes: &[u16]) -> Answer
    requires { ReadWhole l src.now notes.now t }
    ensures { Outlines l src.now result notes.now }
{
    match name_checks::last_fault(src, notes, t.names) {
        Ok(()) => accepted(src, t.counts),
        Err(f) => refused(f),
    }
}

// The lines of a file whose bytes are clean.
fn settle(src: &[u8], l: Lengths, notes: &mut [u16]) -> Answer
    requires { (bytes_fault src.now ≡ Ok tt) × (store_length ≤ length notes.old) }
    ensures { Outlines l src.now result notes.new }
{
    let z = scan(notes, src, l);
    let t = z.tally;
    let ending = z.ending;
    match name_checks::first_clash(src, notes, t.names) {
        Some(k) => refused_at(14, k),
        None => match ending {
            Ok(()) => last_checks(src, l, t, notes),
            Err(f) => refused(f),
        },
    }
}

// The answer to a file, and its notes.
pub fn outlined(src: &[u8], l: Lengths, notes: &mut [u16]) -> Answer
    requires { store_length ≤ length notes.old }
    ensures { Outlines l src.now result notes.new }
{
    match lines::check_bytes(src) {
        Ok(()) => settle(src, l, notes),
        Err(f) => refused(f),
    }
}

// The same for a file that is loaded: before it is looked at, as many rows must be lent as a file can have.
pub fn loaded(src: &[u8], l: Lending, notes: &mut [u16]) -> Answer
    requires { store_length ≤ length notes.old }
    ensures { Loads l src.now result notes.new }
{
    if l.rows < MOST_ROWS {
        return refused_at(25, 0);
    }
    outlined(src, l.tables, notes)
}

// The answer to a file, were tables of these lengths lent. No row is kept: they are counted.
pub fn check(src: &[u8], l: Lengths) -> Answer
    ensures { result ≡ answer_of l src.now }
{
    let mut notes = [0u16; STORE_LENGTH];
    outlined(src, l, &mut notes)
}
