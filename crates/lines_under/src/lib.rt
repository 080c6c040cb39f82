// What stands under a keyword: the lines up to the next keyword line, one after another; and the keywords, one after another.
#![tactic(auto)]

ghost use Rattle.std.specs.Prelude.{◌≡◌, ℕ, List};
ghost use Rattle.cut_lines.specs.Cursors.{rest, Placed};
ghost use Rattle.rules.specs.Keys.{is_end};
ghost use Rattle.rules.specs.Reading.{under};
ghost use Rattle.lines_under.specs.Under.{text_read, LineNextIs, KeyNextIs, LinesAre, StopsAt};
ghost use Rattle.lines_under.specs.Steps.{Folds, StepsBy};

use cut_lines::{Cursor, Next};
use keywords::{KeyFault, Keyword};

// The next line under a keyword, from start up to end; or that there is none, and where the next keyword line stands. The reading goes on at next in both
// cases: with an Option of the line beside it, a loop would have to take next apart in each.
#[derive(Clone, Copy)]
pub enum LineNext {
    Line {
        start: usize,
        end: usize,
        next: Cursor,
    },
    NoLine {
        next: Cursor,
    },
}

// The next keyword that is carried, with its argument from start up to end.
#[derive(Clone, Copy)]
pub struct Key {
    pub keyword: Keyword,
    pub start: usize,
    pub end: usize,
    pub next: Cursor,
}

// How many lines stand under a keyword, and where the next keyword line stands.
#[derive(Clone, Copy)]
pub struct Lines {
    pub count: usize,
    pub next: Cursor,
}

// A [Comment Char] line is passed over: it closes nothing. Of a text's three cases only that one goes on: a while let over it would read the text behind it twice.
pub fn next_line(src: &[u8], c: Cursor) -> LineNext
    requires { Placed src.now c }
    ensures { LineNextIs src.now c result }
{
    let mut d = c;
    loop {
        match cut_lines::next_text(src, d) {
            Next::Text {
                line,
                start,
                end,
                next,
            } => {
                if named_lines::bracketed(&src[start..end]) {
                    return LineNext::NoLine { next: d };
                }
                return LineNext::Line { start, end, next };
            }
            Next::Change { line, fault, next } => d = next,
            Next::Out { line } => return LineNext::NoLine { next: d },
        }
    }
}

// What the lines under a keyword make of x, one after another, and where the next keyword line stands: that is why a loop matches both cases of next_line, and
// why an iterator of the lines would not do.
pub fn fold_lines<X: Copy, F: Fn(X, &[u8]) -> X>(
    src: &[u8],
    c: Cursor,
    x: X,
    step: F,
) -> (X, Cursor)
    requires placed { Placed src.now c }
    requires callable { F.IsAlwaysCallable step }
    ensures folded { (f : X → List (List ℕ) → X) (g : X → List ℕ → X) → Folds f g → StepsBy F.Fn step g → result.0 ≡ f x (under (rest src.now c)) }
    ensures stops { StopsAt src.now c result.1 }
{
    let mut x = x;
    let mut d = c;
    loop {
        match next_line(src, d) {
            LineNext::Line { start, end, next } => {
                x = step(x, &src[start..end]);
                d = next;
            }
            LineNext::NoLine { next } => return (x, next),
        }
    }
}

// Counts the lines under a keyword. No fold_lines: its step may always be called, and of any number one more need not fit.
pub fn count_lines(src: &[u8], c: Cursor) -> Lines
    requires { Placed src.now c }
    ensures { LinesAre src.now c result }
{
    let mut d = c;
    let mut count: usize = 0;
    loop {
        match next_line(src, d) {
            LineNext::Line { start, end, next } => {
                d = next;
                count += 1;
            }
            LineNext::NoLine { next } => {
                return Lines { count, next };
            }
        }
    }
}

// What a text is as a keyword line; one that is none counts as badly formed.
#[tactic(auto, unfolding(crate::specs::Under::text_read))]
fn key_in(w: &[u8]) -> Result<(Keyword, usize), KeyFault>
    ensures { result ≡ text_read w.now }
{
    if !named_lines::bracketed(w) {
        return Err(KeyFault::Malformed);
    }
    keywords::key_of(w)
}

// Texts without a keyword that is carried are passed over. Two of a text's three cases go on, so this is no while let.
pub fn next_key(src: &[u8], c: Cursor) -> Option<Key>
    requires { Placed src.now c }
    ensures { KeyNextIs src.now c result }
{
    let mut d = c;
    loop {
        match cut_lines::next_text(src, d) {
            Next::Text {
                line,
                start,
                end,
                next,
            } => {
                match key_in(&src[start..end]) {
                    Ok((keyword, argument)) => {
                        let from = start + argument;
                        return Some(Key {
                            keyword,
                            start: from,
                            end,
                            next,
                        });
                    }
                    Err(_) => d = next,
                }
            }
            Next::Change { line, fault, next } => d = next,
            Next::Out { line } => return None,
        }
    }
}

// The keyword ends the section above it: it opens one, or is [End].
pub fn ends(k: Keyword) -> bool
    ensures { result ≡ is_end (Some k) }
{
    matches!(k, Keyword::Opens(_) | Keyword::End)
}
