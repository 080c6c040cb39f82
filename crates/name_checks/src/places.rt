// A note's words: its kind by number, its line, and where its names lie.
ghost use Rattle.std.specs.Prelude.{◌≡◌, ◌≤◌, ◌<◌};
ghost use Rattle.laws.specs.Lists.{part, eqs};
ghost use Rattle.rules.specs.Outline.{place};
ghost use Rattle.note_words.specs.Store.{names_held, words_per_section, kind_by, noted_line};
ghost use Rattle.name_checks.specs.Lookup.{place_at, part_said, Within};

use note_words::{AT, CHOICES_FROM, MODELS_FROM, ORDER_FROM, PAIR, PINS_FROM, SELECTORS_FROM};
use words::Word;

// Kinds are numbered as they are listed.
pub const OF_COMPONENT: usize = 0;

pub const OF_PIN: usize = 1;

pub const OF_SELECTOR: usize = 2;

pub const OF_CHOICE: usize = 3;

pub const OF_MODEL: usize = 4;

// The kind in whose area a note lies.
fn kind_by(a: usize) -> usize
    ensures { result ≡ place (kind_by a) }
{
    if a < PINS_FROM {
        return OF_COMPONENT;
    }
    if a < SELECTORS_FROM {
        return OF_PIN;
    }
    if a < CHOICES_FROM {
        return OF_SELECTOR;
    }
    if a < MODELS_FROM {
        return OF_CHOICE;
    }
    OF_MODEL
}

pub fn kind_at(notes: &[u16], i: usize) -> usize
    requires { i ≤ names_held }
    ensures { result ≡ place_at notes.now i }
{
    kind_by(note_words::word(notes, ORDER_FROM + i))
}

// The number of the line that the name at place i stands on: lines are counted for it, so it is asked for once.
pub fn line_at(src: &[u8], notes: &[u16], i: usize) -> u64
    requires { i ≤ names_held }
    ensures { result ≡ noted_line src.now notes.now i }
{
    let a = note_words::word(notes, ORDER_FROM + i);
    let at = note_words::word(notes, a + AT);
    lines::line_number(src, at)
}

// The part of the file that word j of the name at place i says, as it stands.
pub fn part_at(notes: &[u16], i: usize, j: usize) -> Word
    requires { (i ≤ names_held) × (j < words_per_section) }
    ensures { result ≡ part_said notes.now i j }
{
    let a = note_words::word(notes, ORDER_FROM + i);
    let at = note_words::word(notes, a + AT);
    let w = note_words::word(notes, a + j);
    let start = at + w / PAIR;
    Word {
        start: start,
        end: start + w % PAIR,
    }
}

// A part of the file, moved into it where it lies outside.
pub fn within(src: &[u8], w: Word) -> Word
    ensures { Within src.now w.start w.end result }
{
    let a = w.start;
    let e = w.end;
    if e < a {
        return Word { start: 0, end: 0 };
    }
    if e <= src.len() {
        return Word { start: a, end: e };
    }
    if a <= src.len() {
        return Word {
            start: a,
            end: src.len(),
        };
    }
    Word { start: 0, end: 0 }
}

// Two parts of the file have the same bytes: their lengths are compared first.
pub fn same_parts(src: &[u8], w: Word, v: Word) -> bool
    ensures { result ≡ eqs (part w.start w.end src.now) (part v.start v.end src.now) }
{
    let x = within(src, w);
    let y = within(src, v);
    let a = x.start;
    let e = x.end;
    let b = y.start;
    let f = y.end;
    if e - a != f - b {
        return false;
    }
    words::same(&src[a..e], &src[b..f])
}
