// The store of what is noted of a file, in words of two bytes: an area of notes for each kind, then the names in file order. No line's number is noted: it is
// counted from the place where the line begins.
#![tactic(auto)]

ghost use Rattle.std.specs.Prelude.{◌≡◌, ◌+◌, ◌*◌, ◌≤◌, ◌<◌, length, get_or};
ghost use Rattle.std.proofs.lemmas.List.Edits.{sets};
ghost use Rattle.note_words.specs.Store.{names_held, words_per_section, words_per_row, order_from, store_length, paired, words_of_section, SectionFits, words_of_row, RowFits, with_name};

use records::{MOST_CHOICES, MOST_COMPONENTS, MOST_MODELS, MOST_PINS, MOST_SELECTORS};

// ---- where things lie

// As many names as the tables hold.
pub const NAMES_HELD: usize = MOST_COMPONENTS
    + MOST_PINS
    + MOST_SELECTORS
    + MOST_CHOICES
    + MOST_MODELS;

// And one more: a name is noted before its table is found full, for it may be used twice.
pub const MOST_NAMES: usize = NAMES_HELD + 1;

pub const WORDS_PER_SECTION: usize = 5;

pub const WORDS_PER_ROW: usize = 4;

// An area for each kind, its notes in file order: one more than its table holds.
pub const COMPONENTS_FROM: usize = 0;

pub const PINS_FROM: usize = COMPONENTS_FROM + WORDS_PER_SECTION * (MOST_COMPONENTS + 1);

pub const SELECTORS_FROM: usize = PINS_FROM + WORDS_PER_ROW * (MOST_PINS + 1);

pub const CHOICES_FROM: usize = SELECTORS_FROM + WORDS_PER_SECTION * (MOST_SELECTORS + 1);

pub const MODELS_FROM: usize = CHOICES_FROM + WORDS_PER_ROW * (MOST_CHOICES + 1);

// The names in file order: where the note of each lies.
pub const ORDER_FROM: usize = MODELS_FROM + WORDS_PER_SECTION * (MOST_MODELS + 1);

pub const STORE_LENGTH: usize = ORDER_FROM + MOST_NAMES;

// ---- which word says what

// Two numbers below this one share a word: the first is the upper.
pub const PAIR: usize = 256;

// Of every name: where its line begins.
pub const AT: usize = 0;

// How far behind the line's beginning the name lies, and its length.
pub const NAME: usize = 1;

// Of a section: the comment character at its line, and its place among the sections.
pub const SECTION_PLACE: usize = 2;

pub const SECTION_START: usize = 3;

pub const SECTION_ROW: usize = 4;

// Of a pin or a selector row: the model that it names, like the name.
pub const ROW_MODEL: usize = 2;

// The length of its text, which begins where the line does.
pub const ROW_TEXT: usize = 3;

// ---- words

// The word at a place; 0 past the end.
pub fn word(notes: &[u16], k: usize) -> usize
    ensures value { result ≡ get_or notes.now k 0 }
    ensures upper_bound { result < 65536 }
{
    if k < notes.len() {
        let w = notes[k];
        return w as usize;
    }
    0
}

fn pair(high: usize, low: usize) -> u16
    requires { (high < 256) × (low < 256) }
    ensures { result ≡ paired high low }
{
    (high * PAIR + low) as u16
}

fn put_words(notes: &mut [u16], at: usize, words: &[u16])
    requires { at + length words.now ≤ length notes.old }
    ensures { notes.new ≡ sets notes.old at words.now }
{
    notes[at..at + words.len()].copy_from_slice(words);
}

// ---- notes

// What is noted of a section: where its line begins and its name lies; the places of its first pin, row or waveform, and of its first table row; the
// comment character at its line; its place among the sections.
#[derive(Clone, Copy)]
pub struct SectionNote {
    pub at: usize,
    pub name: usize,
    pub name_end: usize,
    pub start: usize,
    pub row: usize,
    pub comment: usize,
    pub section: usize,
}

// What is noted of a pin or a selector row: where its line begins, and with that its text; where its name and the model it names lie, and its text ends.
#[derive(Clone, Copy)]
pub struct RowNote {
    pub at: usize,
    pub name: usize,
    pub name_end: usize,
    pub model: usize,
    pub model_end: usize,
    pub text_end: usize,
}

// Notes a section as name i in file order, its words from a on.
pub fn put_section(notes: &mut [u16], i: usize, a: usize, x: SectionNote)
    requires i_le_names_held { (i ≤ names_held) × (a + words_per_section ≤ order_from) × (store_length ≤ length notes.old) }
    requires section_fits { SectionFits x }
    ensures { notes.new ≡ with_name notes.old i a (words_of_section x) }
{
    let name = pair(x.name - x.at, x.name_end - x.name);
    let place = pair(x.comment, x.section);
    let words = [x.at as u16, name, place, x.start as u16, x.row as u16];
    put_words(notes, a, &words);
    notes[ORDER_FROM + i] = a as u16;
}

// Notes a row as name i in file order, its words from a on.
pub fn put_row(notes: &mut [u16], i: usize, a: usize, x: RowNote)
    requires i_le_names_held { (i ≤ names_held) × (a + words_per_row ≤ order_from) × (store_length ≤ length notes.old) }
    requires row_fits { RowFits x }
    ensures { notes.new ≡ with_name notes.old i a (words_of_row x) }
{
    let name = pair(x.name - x.at, x.name_end - x.name);
    let model = pair(x.model - x.at, x.model_end - x.model);
    let words = [x.at as u16, name, model, (x.text_end - x.at) as u16];
    put_words(notes, a, &words);
    notes[ORDER_FROM + i] = a as u16;
}
