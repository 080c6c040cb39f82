// What to look at: where a fault tells its column, the word that stands there is named.
ghost use Rattle.std.specs.Prelude.{◌≡◌};
ghost use Rattle.text_buffer.specs.Pages.{Writes};
ghost use Rattle.refusal_text.specs.Hints.{word_at, quoted, wrong_text, surplus_text, word_hint, slope_text, number_text, has_slopes, number_hint, range_hint, hint_at, hint_text};
ghost use Rattle.refusal_text.specs.Places.{Lies};

use crate::places::find_text;
use crate::shown::{Showing, put_shown};
use records::Fault;
use text_buffer::Page;
use words::Word;

// Where the word at a place of a line's text lies.
fn find_word(w: &[u8], place: u64) -> Word
    ensures { Lies w.now (word_at w.now place) result }
{
    if w.len() as u64 <= place {
        return Word { start: 0, end: 0 };
    }
    let start = place as usize;
    let end = words::skip_ink(w, start);
    Word { start, end }
}

fn put_quoted(page: &mut Page, word: &[u8])
    ensures { Writes page.old page.new (quoted word.now) }
{
    page.put_byte(b'`');
    put_shown(page, Showing::Plainly, word);
    page.put_byte(b'`');
}

// ---- 10: a word is missing, too many or wrong

fn put_wrong(page: &mut Page, word: &[u8])
    ensures { Writes page.old page.new (wrong_text word.now) }
{
    put_quoted(page, word);
    page.put_bytes(
        b" is wrong here: look at the spelling, the letter case and the length (blanks count), and whether `=` belongs before it.",
    );
}

fn put_surplus(page: &mut Page, word: &[u8])
    ensures { Writes page.old page.new (surplus_text word.now) }
{
    put_quoted(page, word);
    page.put_bytes(
        b" is one word too many, or misspelled: those before it are enough, and `=` counts as one.",
    );
}

fn put_word_hint(page: &mut Page, surplus: bool, word: &[u8])
    ensures { Writes page.old page.new (word_hint surplus word.now) }
{
    if word.is_empty() {
        page.put_bytes(b"A word is missing behind what stands here; a comment does not count.");
    } else if surplus {
        put_surplus(page, word);
    } else if word[0] == b'=' {
        page.put_bytes(b"No `=` may stand here: leave it out, with a blank in its place.");
    } else {
        put_wrong(page, word);
    }
}

// ---- 11: NA where a number must stand, a slope that is none, or no number

// Whether the line is one of slopes.
fn has_slopes(w: &[u8]) -> bool
    ensures { result ≡ has_slopes w.now }
{
    let first = words::word_at(w, 0);
    let name = &w[first.start..first.end];
    words::same(name, b"dV/dt_r") || words::same(name, b"dV/dt_f")
}

fn put_slope(page: &mut Page, word: &[u8])
    ensures { Writes page.old page.new (slope_text word.now) }
{
    put_quoted(page, word);
    page.put_bytes(b" is not two numbers with one `/` between. ");
    fault_texts::put_hint(page, 11);
}

fn put_no_number(page: &mut Page, word: &[u8])
    ensures { Writes page.old page.new (number_text word.now) }
{
    put_quoted(page, word);
    page.put_bytes(b" is no number. ");
    fault_texts::put_hint(page, 11);
}

fn put_number_hint(page: &mut Page, w: &[u8], word: &[u8])
    ensures { Writes page.old page.new (number_hint w.now word.now) }
{
    if words::same_capitals(word, b"NA") {
        page.put_bytes(
            b"Here a number must stand: NA is for min and max, for a pin's own values and inside a table.",
        );
    } else if has_slopes(w) {
        put_slope(page, word);
    } else {
        put_no_number(page, word);
    }
}

// ---- 12: a number out of range

fn put_range_hint(page: &mut Page, word: &[u8])
    ensures { Writes page.old page.new (range_hint word.now) }
{
    page.put_bytes(b"Look at ");
    put_quoted(page, word);
    page.put_bytes(b". ");
    fault_texts::put_hint(page, 12);
}

// ---- all of them

// Of a fault at a word of the text w. In a `match` on the number, the last arm would not say which it is not.
fn put_hint_at(page: &mut Page, w: &[u8], word: &[u8], number: u8, surplus: bool)
    ensures { Writes page.old page.new (hint_at w.now word.now number surplus) }
{
    if number == 10 {
        put_word_hint(page, surplus, word);
    } else if number == 11 {
        put_number_hint(page, w, word);
    } else if number == 12 {
        put_range_hint(page, word);
    } else {
        fault_texts::put_hint(page, number);
    }
}

// Of a fault at a place of the text w.
fn put_hint_in(page: &mut Page, w: &[u8], place: u64, number: u8, surplus: bool)
    ensures { Writes page.old page.new (hint_at w.now (word_at w.now place) number surplus) }
{
    let found = find_word(w, place);
    put_hint_at(page, w, &w[found.start..found.end], number, surplus);
}

// Of any fault. Column 0 is none.
pub(crate) fn put_hint(page: &mut Page, src: &[u8], fault: Fault, surplus: bool)
    ensures { Writes page.old page.new (hint_text src.now fault surplus) }
{
    if fault.column == 0 {
        fault_texts::put_hint(page, fault.number);
    } else {
        let text = find_text(src, fault.line);
        put_hint_in(
            page,
            &src[text.start..text.end],
            fault.column - 1,
            fault.number,
            surplus,
        );
    }
}
