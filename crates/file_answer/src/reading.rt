// Line after line.
ghost use Rattle.std.specs.Prelude.{◌≡◌, List, ℕ, ◌≤◌, length};
ghost use Rattle.records.specs.Flaws.{bare, at_line};
ghost use Rattle.cut_lines.specs.Cursors.{rest, past, first_cursor, CleanFrom};
ghost use Rattle.rules.specs.declared.Stage.TheVariants.{BeforeVersion};
ghost use Rattle.notes.specs.Noted.{run_log, empty_log, out_of_lines};
ghost use Rattle.note_words.specs.Store.{most_names, store_length};
ghost use Rattle.noted_events.specs.Events.{log_of, logged_at, told_is, KeptBy, Ready, Within, FiledBy};
ghost use Rattle.file_answer.specs.Scans.{finish_is, standing, WithinAt, Sound, ListPassed};

use crate::pins::behind_pins;
use crate::rows::behind_rows;
use crate::{Scanned, Standing};
use cut_lines::{Cursor, Next};
use noted_events::events::note_event;
use noted_events::{Spot, Tally, Told};
use records::{Fault, Lengths, LineFault};
use rules::{Event, Stage, Went};

fn broken(f: Fault, t: Tally) -> Scanned
    ensures { result ≡ record { ending = Err f; tally = t } }
{
    Scanned {
        ending: Err(f),
        tally: t,
    }
}

// The fault of a line that has no room for what it adds, or of [End]'s own.
fn broken_at(f: LineFault, line: u64, t: Tally) -> Scanned
    ensures { result ≡ record { ending = Err (at_line line f); tally = t } }
{
    broken(
        Fault {
            number: f.number,
            line: line,
            column: f.column,
        },
        t,
    )
}

fn spot_at(line: u64, start: usize, end: usize, next: Cursor) -> Spot
    ensures { result ≡ record { line = line; start = start; end = end; next = next } }
{
    Spot {
        line: line,
        start: start,
        end: end,
        next: next,
    }
}

fn stands(stage: Stage, cursor: Cursor, tally: Tally) -> Standing
    ensures { result ≡ standing stage cursor tally }
{
    Standing {
        stage: stage,
        cursor: cursor,
        tally: tally,
    }
}

// Notes and counts what a line adds; most add nothing.
fn note_line(notes: &mut [u16], src: &[u8], l: Lengths, t: Tally, p: Spot, e: Event) -> Told
    requires { Ready src.now notes.old t p }
    ensures e_value { logged_at l src.now notes.old t p e ≡ told_is src.now notes.new p.line result }
    ensures kept_by { KeptBy notes.new t result }
{
    if let Event::Quiet = e {
        return Ok(t);
    }
    note_event(notes, src, l, t, p, e)
}

// Rows of tables and pins come in numbers.
fn comes_in_numbers(e: Event) -> bool {
    match e {
        Event::TableRow => true,
        Event::PinRow => true,
        Event::Quiet => false,
        Event::Opened(_) => false,
        Event::ChoiceRow => false,
        Event::WaveformOpened => false,
        Event::Ended(_) => false,
    }
}

// Behind the rows or the pins of the list that is open.
fn behind_list(notes: &mut [u16], src: &[u8], l: Lengths, x: Standing) -> Standing
    requires { Sound src.now notes.old x }
    ensures { ListPassed l src.now notes.old x notes.new result }
{
    let stage = x.stage;
    if let Stage::InModel(_) = stage {
        return behind_rows(src, x);
    }
    behind_pins(notes, src, l, x)
}

// There is no line more.
fn out_of_lines(s: Stage, t: Tally, line: u64) -> Scanned
    ensures by_index { (src xs : List ℕ) → out_of_lines line (log_of src xs t) s ≡ finish_is src xs result }
    ensures tally_value { result.tally ≡ t }
    ensures by_index_2 { (xs : List ℕ) → Within t × FiledBy xs t → WithinAt xs result.tally result.ending }
{
    let f = Fault {
        number: 19,
        line: line,
        column: 0,
    };
    match s {
        Stage::BeforeVersion => broken(f, t),
        Stage::InHeader(_) => broken(f, t),
        Stage::InComponent(_) => broken(f, t),
        Stage::InSelector(_) => broken(f, t),
        Stage::InModel(_) => broken(f, t),
        Stage::AfterEnd => Scanned {
            ending: Ok(()),
            tally: t,
        },
    }
}

// All lines from the top, up to the first fault. Stage, cursor and tally are held apart: most lines change the first two alone.
pub fn scan(notes: &mut [u16], src: &[u8], l: Lengths) -> Scanned
    requires src_len_bound { (length src.now ≤ 65536) × (store_length ≤ length notes.old) }
    requires clean_from { CleanFrom src.now first_cursor }
    ensures first_cursor_value { run_log l (past src.now first_cursor) BeforeVersion empty_log (rest src.now first_cursor) ≡ finish_is src.now notes.new result }
    ensures names_le_most_names { (result.tally.names ≤ most_names) × WithinAt notes.new result.tally result.ending }
{
    let mut stage = Stage::BeforeVersion;
    let mut cursor = Cursor::first();
    let mut tally = noted_events::room::nothing();
    loop {
        match cut_lines::next_text(src, cursor) {
            Next::Text {
                line,
                start,
                end,
                next,
            } => match steps::on_plain(stage, line, &src[start..end]) {
                Ok((u, e)) => {
                    stage = u;
                    cursor = next;
                    let p = spot_at(line, start, end, next);
                    match note_line(notes, src, l, tally, p, e) {
                        Ok(more) => tally = more,
                        Err((fault, full)) => return broken_at(fault, line, full),
                    }
                    if comes_in_numbers(e) {
                        let x = stands(stage, cursor, tally);
                        let y = behind_list(notes, src, l, x);
                        stage = y.stage;
                        cursor = y.cursor;
                        tally = y.tally;
                    }
                }
                Err(f) => return broken(f, tally),
            },
            Next::Change { line, fault, next } => match steps::on_change(stage, line, fault) {
                Ok((u, _)) => {
                    stage = u;
                    cursor = next;
                }
                Err(f) => return broken(f, tally),
            },
            Next::Out { line } => return out_of_lines(stage, tally, line),
        }
    }
}
