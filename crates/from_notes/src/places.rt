// What the words of a store name, whatever the words are: words, parts of the file and cursors.
ghost use Rattle.std.specs.Prelude.{◌≡◌, ◌+◌, ◌*◌, ◌≤◌, ◌<◌, get_or};
ghost use Rattle.laws.specs.Lists.{part};
ghost use Rattle.cut_lines.specs.Cursors.{Placed};
ghost use Rattle.note_words.specs.Store.{words_per_section, words_per_row, order_from, word_of, name_of, section_at};
ghost use Rattle.from_notes.specs.Made.{mark_of, StandsAt, row_noted, BehindText, StandsBehind};

use cut_lines::{Cursor, Next};
use note_words::{AT, NAME, PAIR, ROW_TEXT, SECTION_PLACE, WORDS_PER_ROW, WORDS_PER_SECTION};

// The word i places behind a place; 0 past the end.
fn word_behind(notes: &[u16], from: usize, i: usize) -> usize
    ensures value { result ≡ get_or notes.now (from + i) 0 }
    ensures upper_bound { result < 65536 }
{
    if notes.len() <= i {
        return 0;
    }
    if notes.len() - i <= from {
        return 0;
    }
    note_words::word(notes, from + i)
}

// Word j of section i in the area that begins at this word.
pub fn section_word(notes: &[u16], from: usize, i: usize, j: usize) -> usize
    requires { from ≤ order_from }
    ensures value { result ≡ word_of notes.now (from + words_per_section * i) j }
    ensures upper_bound { result < 65536 }
{
    if notes.len() / WORDS_PER_SECTION < i {
        return 0;
    }
    word_behind(notes, from + WORDS_PER_SECTION * i, j)
}

// Word j of row i in the area that begins at this word.
fn row_word(notes: &[u16], from: usize, i: usize, j: usize) -> usize
    requires { from ≤ order_from }
    ensures value { result ≡ word_of notes.now (from + words_per_row * i) j }
    ensures upper_bound { result < 65536 }
{
    if notes.len() / WORDS_PER_ROW < i {
        return 0;
    }
    word_behind(notes, from + WORDS_PER_ROW * i, j)
}

// The bytes from a up to e; what is not there is left out.
fn part_of(src: &[u8], a: usize, e: usize) -> &[u8]
    ensures { result.now ≡ part a e src.now }
{
    if e <= a {
        return &src[0..0];
    }
    if src.len() <= a {
        return &src[0..0];
    }
    if src.len() <= e {
        return &src[a..];
    }
    &src[a..e]
}

// The comment character that a word says.
fn mark_of(word: usize) -> u8
    ensures { result ≡ mark_of word }
{
    if 256 <= word {
        return b'\n';
    }
    word as u8
}

// A cursor at a place, or at the end. Its lines are numbered from 1: no record holds a line's number.
fn cursor_at(src: &[u8], at: usize, comment: usize) -> Cursor
    ensures { StandsAt src.now at comment result }
{
    let mark = mark_of(comment);
    if at < src.len() {
        return Cursor {
            at: at,
            line: 1,
            comment: mark,
        };
    }
    Cursor {
        at: src.len(),
        line: 1,
        comment: mark,
    }
}

// The name of section i in an area.
pub fn name_noted<'a>(src: &'a [u8], notes: &[u16], from: usize, i: usize) -> &'a [u8]
    requires { from ≤ order_from }
    ensures { result.now ≡ name_of src.now notes.now (from + words_per_section * i) }
{
    let at = section_word(notes, from, i, AT);
    let name = section_word(notes, from, i, NAME);
    let start = at + name / PAIR;
    part_of(src, start, start + name % PAIR)
}

// The text of row i in an area.
pub(crate) fn row_noted<'a>(src: &'a [u8], notes: &[u16], from: usize, i: usize) -> &'a [u8]
    requires { from ≤ order_from }
    ensures { result.now ≡ row_noted src.now notes.now (from + words_per_row * i) }
{
    let at = row_word(notes, from, i, AT);
    let length = row_word(notes, from, i, ROW_TEXT);
    part_of(src, at, at + length)
}

// Behind the next text; where there is none, the same.
fn behind_text(src: &[u8], c: Cursor) -> Cursor
    requires { Placed src.now c }
    ensures { BehindText src.now c result }
{
    match cut_lines::next_text(src, c) {
        Next::Text {
            line,
            start,
            end,
            next,
        } => next,
        Next::Change { line, fault, next } => next,
        Next::Out { line } => c,
    }
}

// Behind the keyword line of section i in an area.
pub fn section_noted(src: &[u8], notes: &[u16], from: usize, i: usize) -> Cursor
    requires { from ≤ order_from }
    ensures { StandsBehind src.now notes.now (from + words_per_section * i) result }
{
    let at = section_word(notes, from, i, AT);
    let place = section_word(notes, from, i, SECTION_PLACE);
    let c = cursor_at(src, at, place / PAIR);
    behind_text(src, c)
}

// The place of section i in an area, among the sections.
pub fn place_noted(notes: &[u16], from: usize, i: usize) -> usize
    requires { from ≤ order_from }
    ensures { result ≡ (section_at notes.now (from + words_per_section * i)).section }
{
    section_word(notes, from, i, SECTION_PLACE) % PAIR
}
