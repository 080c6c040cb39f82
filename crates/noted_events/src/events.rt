// What a line adds to the file is noted.
ghost use Rattle.std.specs.Prelude.{◌≡◌, ◌+◌, ◌<◌, ◌^◌};
ghost use Rattle.rules.specs.declared.Event.TheVariants.{Opened, PinRow, ChoiceRow, WaveformOpened, TableRow, Ended};
ghost use Rattle.records.specs.Flaws.{bare};
ghost use Rattle.note_words.specs.Store.{SectionFits, RowFits};
ghost use Rattle.noted_events.specs.Events.{told_is, logged_at, counted, section_in, row_in, Within, KeptBy, Ready};

use crate::places::{argument_in, first_in};
use crate::room::{bound_of, one_more, used_of, waveform_bound};
use crate::{Spot, Tally, Told};
use keywords::Section;
use note_words::{
    CHOICES_FROM, COMPONENTS_FROM, MODELS_FROM, PINS_FROM, RowNote, SELECTORS_FROM, SectionNote,
    WORDS_PER_ROW, WORDS_PER_SECTION, put_row, put_section,
};
use records::{Counts, Kind, Lengths, LineFault};
use rules::Event;
use words::Word;

// There is no room, which tells no column.
fn no_room(number: u8, t: Tally) -> Told
    ensures { result ≡ Err (bare number, t) }
{
    Err((
        LineFault {
            number: number,
            column: 0,
        },
        t,
    ))
}

// Counts a name that is noted, if its table has room.
fn count_name(l: Lengths, t: Tally, k: Kind) -> Told
    requires { Within t }
    ensures { result ≡ counted l t k }
{
    let counts = t.counts;
    let names = t.names;
    if bound_of(l, k) <= used_of(counts, k) {
        return no_room(
            17,
            Tally {
                names: names + 1,
                counts: counts,
            },
        );
    }
    Ok(Tally {
        names: names + 1,
        counts: one_more(counts, k),
    })
}

// The note of a section whose name lies from a to e; start and row are the places of what is its own in other tables.
fn section_note(p: Spot, a: usize, e: usize, c: Counts, start: usize, row: usize) -> SectionNote
    requires models_bound { c.components + c.selectors + c.models < 2 ^ 32 }
    requires section_fits { p.next.comment < 256 → SectionFits (section_in p a e c start row) }
    ensures { (result ≡ section_in p a e c start row) × SectionFits result }
{
    let next = p.next;
    SectionNote {
        at: p.start,
        name: a,
        name_end: e,
        start: start,
        row: row,
        comment: next.comment as usize,
        section: c.components + c.selectors + c.models,
    }
}

// The note of a row with its name and the model it names.
fn row_note(p: Spot, name: Word, model: Word) -> RowNote
    requires { RowFits (row_in p name model) }
    ensures { (result ≡ row_in p name model) × RowFits result }
{
    RowNote {
        at: p.start,
        name: name.start,
        name_end: name.end,
        model: model.start,
        model_end: model.end,
        text_end: p.end,
    }
}

// Notes a section, then asks for room in its table.
fn note_section(notes: &mut [u16], src: &[u8], l: Lengths, t: Tally, p: Spot, o: Section) -> Told
    requires { Ready src.now notes.old t p }
    ensures o_value { logged_at l src.now notes.old t p (Opened o) ≡ told_is src.now notes.new p.line result }
    ensures kept_by { KeptBy notes.new t result }
{
    let c = t.counts;
    let i = t.names;
    let a = argument_in(src, p.start, p.end);
    let w = first_in(src, a, p.end);
    match o {
        Section::Component => {
            let x = section_note(p, a, p.end, c, c.pins, 0);
            let at = COMPONENTS_FROM + WORDS_PER_SECTION * c.components;
            put_section(notes, i, at, x);
            count_name(l, t, Kind::OfComponent)
        }
        Section::Selector => {
            let x = section_note(p, w.start, w.end, c, c.choices, 0);
            let at = SELECTORS_FROM + WORDS_PER_SECTION * c.selectors;
            put_section(notes, i, at, x);
            count_name(l, t, Kind::OfSelector)
        }
        Section::Model => {
            let x = section_note(p, w.start, w.end, c, c.waveforms, c.rows);
            let at = MODELS_FROM + WORDS_PER_SECTION * c.models;
            put_section(notes, i, at, x);
            count_name(l, t, Kind::OfModel)
        }
    }
}

// Notes a pin, then asks for room in the table of pins.
fn note_pin(notes: &mut [u16], src: &[u8], l: Lengths, t: Tally, p: Spot) -> Told
    requires { Ready src.now notes.old t p }
    ensures p_value { logged_at l src.now notes.old t p PinRow ≡ told_is src.now notes.new p.line result }
    ensures kept_by { KeptBy notes.new t result }
{
    let name = first_in(src, p.start, p.end);
    let signal = first_in(src, name.end, p.end);
    let model = first_in(src, signal.end, p.end);
    let x = row_note(p, name, model);
    let at = PINS_FROM + WORDS_PER_ROW * t.counts.pins;
    put_row(notes, t.names, at, x);
    count_name(l, t, Kind::OfPin)
}

// Notes a selector's row, then asks for room in their table.
fn note_choice(notes: &mut [u16], src: &[u8], l: Lengths, t: Tally, p: Spot) -> Told
    requires { Ready src.now notes.old t p }
    ensures p_value { logged_at l src.now notes.old t p ChoiceRow ≡ told_is src.now notes.new p.line result }
    ensures kept_by { KeptBy notes.new t result }
{
    let name = first_in(src, p.start, p.end);
    let x = row_note(p, name, name);
    let at = CHOICES_FROM + WORDS_PER_ROW * t.counts.choices;
    put_row(notes, t.names, at, x);
    count_name(l, t, Kind::OfChoice)
}

fn count_waveform(src: &[u8], notes: &[u16], l: Lengths, t: Tally, p: Spot) -> Told
    requires { Ready src.now notes.now t p }
    ensures p_value { logged_at l src.now notes.now t p WaveformOpened ≡ told_is src.now notes.now p.line result }
    ensures kept_by { KeptBy notes.now t result }
{
    let c = t.counts;
    let j = c.waveforms;
    if waveform_bound(l) <= j {
        return no_room(17, t);
    }
    let mut d = c;
    d.waveforms = j + 1;
    Ok(Tally {
        names: t.names,
        counts: d,
    })
}

fn count_row(src: &[u8], notes: &[u16], l: Lengths, t: Tally, p: Spot) -> Told
    requires { Ready src.now notes.now t p }
    ensures p_value { logged_at l src.now notes.now t p TableRow ≡ told_is src.now notes.now p.line result }
    ensures kept_by { KeptBy notes.now t result }
{
    let c = t.counts;
    let mut d = c;
    d.rows = c.rows + 1;
    Ok(Tally {
        names: t.names,
        counts: d,
    })
}

// [End], with the fault of its own line: a file has a component.
fn end_file(src: &[u8], notes: &[u16], l: Lengths, t: Tally, p: Spot, f: LineFault) -> Told
    requires { Ready src.now notes.now t p }
    ensures f_value { logged_at l src.now notes.now t p (Ended f) ≡ told_is src.now notes.now p.line result }
    ensures kept_by { KeptBy notes.now t result }
{
    let c = t.counts;
    if c.components == 0 {
        return no_room(9, t);
    }
    if f.number == 0 {
        return Ok(t);
    }
    Err((f, t))
}

// Notes what a line's event adds.
pub fn note_event(notes: &mut [u16], src: &[u8], l: Lengths, t: Tally, p: Spot, e: Event) -> Told
    requires { Ready src.now notes.old t p }
    ensures e_value { logged_at l src.now notes.old t p e ≡ told_is src.now notes.new p.line result }
    ensures kept_by { KeptBy notes.new t result }
{
    match e {
        Event::Quiet => Ok(t),
        Event::Opened(o) => note_section(notes, src, l, t, p, o),
        Event::PinRow => note_pin(notes, src, l, t, p),
        Event::ChoiceRow => note_choice(notes, src, l, t, p),
        Event::WaveformOpened => count_waveform(src, notes, l, t, p),
        Event::TableRow => count_row(src, notes, l, t, p),
        Event::Ended(f) => end_file(src, notes, l, t, p, f),
    }
}
