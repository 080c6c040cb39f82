// The models one after the other: one pass over a model's lines makes its waveforms' records and then its own, and writes its rows. A step makes one record.
ghost use Rattle.std.specs.Prelude.{◌≡◌, List, ℕ, suc, ◌≤◌, length};
ghost use Rattle.records.specs.Stored.{stored};
ghost use Rattle.records.specs.declared.Waveform.{Waveform};
ghost use Rattle.table_rows.specs.Rows.{Lies};
ghost use Rattle.from_notes.specs.Made.{rows_at};
ghost use Rattle.from_notes.specs.Models.{none_made, model_from, Sound, OpensAt, Reached, Ready, Goes};

use crate::places::{name_noted, place_noted, section_noted, section_word};
use crate::{Opening, Progress};
use cut_lines::Cursor;
use model_record::bodies::{bare_body, no_waveform, take_keys};
use model_record::firsts::{bare_lines, first_lines};
use model_record::record::model_over;
use note_words::{MODELS_FROM, SECTION_ROW, SECTION_START};
use records::{Model, Waveform};

// Before the first step.
pub fn no_record() -> Progress
    ensures { result ≡ none_made }
{
    let start = Cursor {
        at: 0,
        line: 1,
        comment: 0,
    };
    Progress {
        words: 0,
        lines: bare_lines(),
        taken: no_waveform(bare_body(0), start, 0),
    }
}

// The model at place k of its list, from behind its keyword line, or where it goes on, from behind its waveform.
fn opening(src: &[u8], notes: &[u16], p: Progress, k: usize) -> Opening
    requires { Sound src.now p }
    ensures { OpensAt src.now notes.now p k result }
{
    if p.taken.waveform.is_some() {
        let lines = p.lines;
        let body = p.taken.body;
        let next = p.taken.next;
        return Opening {
            lines: lines,
            body: body,
            next: next,
        };
    }
    let row = section_word(notes, MODELS_FROM, k, SECTION_ROW);
    let first = first_lines(src, section_noted(src, notes, MODELS_FROM, k));
    let lines = first.lines;
    let next = first.next;
    Opening {
        lines: lines,
        body: bare_body(row),
        next: next,
    }
}

// Reads the model at place k on to its next waveform, or to its end; its rows are written behind those before.
pub fn next_record(rows: &mut [u64], src: &[u8], notes: &[u16], p: Progress, k: usize) -> Progress
    requires { Ready src.now notes.now p k rows.old }
    ensures { (waves : List Waveform) (rowed store : List ℕ) → Reached src.now notes.now p k waves rowed → Lies store rows.old p.words rowed → length (stored (rows_at src.now notes.now (suc k))) ≤ length store → Goes src.now notes.now k waves rowed store rows.new result }
{
    let from = opening(src, notes, p, k);
    let lines = from.lines;
    let words = p.words;
    let taken = take_keys(&mut rows[words..], src, from.next, from.body);
    let used = words + taken.words;
    Progress {
        words: used,
        lines: lines,
        taken: taken,
    }
}

// ---- the record that the last step made

// None if it is a model's.
pub fn waveform_made(p: Progress) -> Option<Waveform>
    ensures { result ≡ p.taken.waveform }
{
    p.taken.waveform
}

// k is its place in its list.
pub fn model_made(src: &[u8], notes: &[u16], p: Progress, k: usize) -> Model
    ensures { result ≡ model_from src.now notes.now k p.lines p.taken.body }
{
    let section = place_noted(notes, MODELS_FROM, k);
    let start = section_word(notes, MODELS_FROM, k, SECTION_START);
    let name = records::name_of(name_noted(src, notes, MODELS_FROM, k));
    let lines = p.lines;
    let body = p.taken.body;
    model_over(section, start, name, lines, body)
}
