// The rows of [Pin], in a loop of their own: behind the first one, each is noted and counted and leaves the stage as it is. What is no pin row, or
// has no room, is left to the line's own step.
ghost use Rattle.std.specs.Prelude.{◌≡◌, ◌+◌, ◌≤◌, ◌<◌, length};
ghost use Rattle.records.specs.Bounds.{most};
ghost use Rattle.records.specs.declared.Kind.TheVariants.{OfPin};
ghost use Rattle.note_words.specs.Store.{names_held, store_length, RowFits};
ghost use Rattle.file_answer.specs.Scans.{Ground, Sound, ListPassed};
ghost use Rattle.file_answer.specs.Pins.{pin_note, PinNoted, with_pins, PinsAre};

use crate::{PinsPassed, Standing};
use component_steps::{PinNames, pin_names, row_fault};
use cut_lines::{Cursor, Next};
use note_words::{PINS_FROM, RowNote, WORDS_PER_ROW, put_row};
use noted_events::Tally;
use noted_events::room::bound_of;
use records::{Kind, Lengths};
use rules::{ComponentList, Stage};

// The note of a pin row whose names lie there in its text.
fn pin_note(start: usize, end: usize, names: PinNames) -> RowNote
    requires { RowFits (pin_note start end names) }
    ensures { (result ≡ pin_note start end names) × RowFits result }
{
    let pin = names.pin;
    let model = names.model;
    RowNote {
        at: start,
        name: start + pin.start,
        name_end: start + pin.end,
        model: start + model.start,
        model_end: start + model.end,
        text_end: end,
    }
}

// Notes a text if it is a pin row, as name i in file order and pin j; whether it is one.
fn pin_noted(
    notes: &mut [u16],
    src: &[u8],
    i: usize,
    j: usize,
    start: usize,
    end: usize,
    long: bool,
) -> bool
    requires start_lt_end { (start < end) × (end ≤ start + 120) × (end ≤ length src.now) × (length src.now ≤ 65536) }
    requires i_le_names_held { (i ≤ names_held) × (j ≤ most OfPin) × (store_length ≤ length notes.old) }
    ensures { PinNoted src.now notes.old i j start end long notes.new result }
{
    let w = &src[start..end];
    if named_lines::bracketed(w) {
        return false;
    }
    let names = pin_names(w);
    if row_fault(w, names, long).is_err() {
        return false;
    }
    let x = pin_note(start, end, names);
    put_row(notes, i, PINS_FROM + WORDS_PER_ROW * j, x);
    true
}

// Behind pin rows, with so many names and pins.
fn passed(cursor: Cursor, t: Tally, names: usize, pins: usize) -> PinsPassed
    ensures { result ≡ record { cursor = cursor; tally = with_pins t names pins } }
{
    let mut counts = t.counts;
    counts.pins = pins;
    PinsPassed {
        cursor: cursor,
        tally: Tally {
            names: names,
            counts: counts,
        },
    }
}

// Passes the pin rows from a cursor on, as long as there is room. How many names and pins there are stands in variables of its own: the tally would
// be copied at every row.
fn pass_pins(
    notes: &mut [u16],
    src: &[u8],
    l: Lengths,
    c: Cursor,
    t: Tally,
    long: bool,
) -> PinsPassed
    requires { Ground src.now notes.old c t }
    ensures { PinsAre l src.now notes.old c t long notes.new result }
{
    let bound = bound_of(l, Kind::OfPin);
    let mut cursor = c;
    let mut names = t.names;
    let mut pins = t.counts.pins;
    while pins < bound {
        match cut_lines::next_text(src, cursor) {
            Next::Text {
                line,
                start,
                end,
                next,
            } => {
                if !pin_noted(notes, src, names, pins, start, end, long) {
                    return passed(cursor, t, names, pins);
                }
                cursor = next;
                names += 1;
                pins += 1;
            }
            Next::Change { line, fault, next } => return passed(cursor, t, names, pins),
            Next::Out { line } => return passed(cursor, t, names, pins),
        }
    }
    passed(cursor, t, names, pins)
}

// Behind the pin rows, if one was read; else all stays.
pub(crate) fn behind_pins(notes: &mut [u16], src: &[u8], l: Lengths, x: Standing) -> Standing
    requires { Sound src.now notes.old x }
    ensures { ListPassed l src.now notes.old x notes.new result }
{
    let stage = x.stage;
    let Stage::InComponent(component) = stage else {
        return x;
    };
    let list = component.list;
    let ComponentList::PinRows { line, long, any } = list else {
        return x;
    };
    if any {
        let c = x.cursor;
        let t = x.tally;
        let p = pass_pins(notes, src, l, c, t, long);
        let cursor = p.cursor;
        let tally = p.tally;
        return Standing {
            stage: stage,
            cursor: cursor,
            tally: tally,
        };
    }
    x
}
