// Lines of a file: the faults of their bytes, in one pass; the reader that hands out one line at a time; and what cutting leaves.
#![tactic(auto)]

ghost use Rattle.std.specs.Prelude.{◌≡◌, true, false, slice_index, ℕ, ◌+◌, ◌≤◌, ◌<◌, min, length, drop};
ghost use Rattle.laws.specs.Lists.{front, other};
ghost use Rattle.lines.specs.Lines.{is_allowed, lines_of, fault_from, bytes_fault};
ghost use Rattle.lines.specs.Places.{checked, Goes, line_from, cut_from, line_stop, text_stop, line_at, reader_behind};
ghost use Rattle.lines.specs.Breaks.{break_of};

use records::Fault;

// The bytes of a file and the characters of a line at the most.
const FILE: usize = 65536;

const LINE: usize = 120;

// A line from where it was asked for up to end, and where the next begins; all three are one place where no line is left.
#[derive(Clone, Copy)]
pub struct Line {
    pub end: usize,
    pub next: usize,
}

// A line, whole, and where it ends once it is cut.
#[derive(Clone, Copy)]
pub struct CutLine {
    pub whole: Line,
    pub cut: usize,
}

// A reader that is lent the file and remembers its place.
#[derive(Clone, Copy)]
pub struct LineReader<'a> {
    pub src: &'a [u8],
    pub at: usize,
}

// Hex 20 to 7E, and tab.
#[tactic(auto, unfolding(crate::specs::Lines::is_allowed))]
fn allowed(b: u8) -> bool
    ensures { result ≡ is_allowed b }
{
    matches!(b, 0x20..=0x7E | b'\t')
}

// Whether all of these bytes pass. None of them ends the loop, so that a machine may look at all at once.
fn all_pass<F: Fn(u8) -> bool>(eight: &[u8; 8], passes: &F) -> bool
    requires { F.IsAlwaysCallable passes.now }
    ensures { result ≡ true → (k : ℕ) → k < 8 → F.post passes.now (slice_index eight.now k) true }
{
    let mut all = true;
    for b in eight {
        all &= passes(*b);
    }
    all
}

// Where the bytes from at on that pass a test end, eight at once as long as eight are left that pass. With `words::skip` alone, lines checked and cut take 33.7
// instructions a byte in place of 20.2.
fn skip_eights<F: Fn(u8) -> bool>(s: &[u8], at: usize, passes: F) -> usize
    requires at_in_bounds { at ≤ length s.now }
    requires callable { F.IsAlwaysCallable passes }
    ensures lower_bound { (at ≤ result) × (result ≤ length s.now) }
    ensures passed { (k : ℕ) → at + k < result → F.post passes (slice_index s.now (at + k)) true }
    ensures stopped { result < length s.now → F.post passes (slice_index s.now result) false }
{
    let mut i = at;
    while let Some(eight) = s[i..].first_chunk::<8>() {
        if !all_pass(eight, &passes) {
            break;
        }
        i += 8;
    }
    words::skip(s, i, passes)
}

// Where the allowed bytes from at on end.
fn skip_allowed(s: &[u8], at: usize) -> usize
    requires { at ≤ length s.now }
    ensures value { result ≡ at + length (front is_allowed (drop at s.now)) }
    ensures lower_bound { (at ≤ result) × (result ≤ length s.now) }
{
    skip_eights(s, at, allowed)
}

// Where a line stops, at the first LF from at on, or at the end of s: the next eight bytes one by one, for most lines stop where they are asked for, and then eight at once,
// for behind a comment character that may be most of a line. By `words::find` alone a file of comments takes twice the instructions.
fn line_end(s: &[u8], at: usize) -> usize
    requires { at ≤ length s.now }
    ensures value { result ≡ line_stop s.now at }
    ensures lower_bound { (at ≤ result) × (result ≤ length s.now) }
{
    let near = s.len().min(at + 8);
    let stop = words::skip(&s[..near], at, |b| b != b'\n');
    if stop < near {
        return stop;
    }
    skip_eights(s, stop, |b| b != b'\n')
}

// How many bytes of a line's end stand at a place: 1 for LF, 2 for CR LF, else 0.
fn line_break(s: &[u8], at: usize) -> usize
    ensures { result ≡ break_of (drop at s.now) }
{
    if s.len() <= at {
        return 0;
    }
    if s[at] == b'\n' {
        return 1;
    }
    if s[at] != b'\r' {
        return 0;
    }
    let after = at + 1;
    if s.len() <= after {
        return 0;
    }
    if s[after] == b'\n' { 2 } else { 0 }
}

// Looks at the bytes of one line.
fn line_check(s: &[u8], at: usize) -> Result<usize, u8>
    requires { at < length s.now }
    ensures by_index { (k : ℕ) → fault_from k (lines_of (drop at s.now)) ≡ checked s.now k result }
    ensures goes { Goes s.now at result }
{
    let end = skip_allowed(s, at);
    let ending = line_break(s, end);
    if ending == 0 {
        if end < s.len() {
            return Err(2);
        }
        if LINE < end - at {
            return Err(3);
        }
        return Err(4);
    }
    if LINE < end - at {
        return Err(3);
    }
    Ok(end + ending)
}

// Faults 1 to 4: the first of them, in one pass over the bytes.
pub fn check_bytes(s: &[u8]) -> Result<(), Fault>
    ensures { result ≡ bytes_fault s.now }
{
    if FILE < s.len() {
        return Err(Fault {
            number: 1,
            line: 0,
            column: 0,
        });
    }
    // A turn is a line, and how long that is shows only once it is looked at.
    let mut at = 0;
    let mut line: u64 = 1;
    while at < s.len() {
        match line_check(s, at) {
            Ok(n) => {
                at = n;
                line += 1;
            }
            Err(number) => {
                return Err(Fault {
                    number: number,
                    line: line,
                    column: 0,
                });
            }
        }
    }
    Ok(())
}

// The line at a place, whole. It stops at an LF or at the end of s.
fn line_to(s: &[u8], at: usize, stop: usize) -> Line
    requires at_in_bounds { at < length s.now }
    requires stop_value { stop ≡ line_stop s.now at }
    ensures value { result ≡ line_from s.now at }
    ensures end_le_stop { result.end ≤ stop }
{
    if s.len() <= stop {
        return Line {
            end: stop,
            next: stop,
        };
    }
    if at < stop {
        let last = stop - 1;
        if s[last] == b'\r' {
            return Line {
                end: last,
                next: stop + 1,
            };
        }
    }
    Line {
        end: stop,
        next: stop + 1,
    }
}

// The line at a place, whole.
fn whole_line(s: &[u8], at: usize) -> Line
    ensures { result ≡ line_from s.now at }
{
    if s.len() <= at {
        return Line { end: at, next: at };
    }
    line_to(s, at, line_end(s, at))
}

impl<'a> LineReader<'a> {
    // A reader of these bytes that stands at a place.
    pub fn new(src: &'a [u8], at: usize) -> LineReader<'a>
        ensures { result ≡ record { src = src.entry; at = at } }
    {
        LineReader { src: src, at: at }
    }

    // Hands out the line at its place, and stands behind it.
    pub fn next<'s>(self: &'s mut LineReader<'a>) -> Line
        ensures { (result ≡ line_from self.old.src.now self.old.at) × (self.new ≡ reader_behind self.old (line_from self.old.src.now self.old.at)) }
    {
        let l = whole_line(self.src, self.at);
        self.at = l.next;
        l
    }
}

// The line at a place: a reader that stands there hands it out.
pub fn line_at(src: &[u8], at: usize) -> Line
    ensures { result ≡ line_from src.now at }
{
    let mut reader = LineReader::new(src, at);
    reader.next()
}

// How many lines there are: one for each LF, and one that is not ended.
fn count_lines(s: &[u8]) -> u64
    ensures value { result ≡ length (lines_of s.now) }
    ensures upper_bound { result ≤ length s.now }
{
    let ended = s.iter().filter(|b| **b == b'\n').count() as u64;
    match s.last() {
        Some(b) if *b != b'\n' => ended + 1,
        _ => ended,
    }
}

// The number of the line that begins at a place.
pub fn line_number(src: &[u8], at: usize) -> u64
    ensures { result ≡ line_at src.now at }
{
    let past = 1 + count_lines(src);
    if src.len() <= at {
        return past;
    }
    past - count_lines(&src[at..])
}

// Where the text of a line stops, at the first LF or comment character from at on, or at the end of s.
fn text_stop(s: &[u8], at: usize, comment: u8) -> usize
    requires { at ≤ length s.now }
    ensures value { result ≡ text_stop s.now at comment }
    ensures lower_bound { (at ≤ result) × (result ≤ length s.now) }
    ensures result_value { line_stop s.now result ≡ line_stop s.now at }
{
    skip_eights(s, at, |b| b != b'\n' && b != comment)
}

// The line at a place, whole, and where it ends once it is cut at its comment, without trailing blanks: its bytes are looked at once.
pub fn cut_line(s: &[u8], at: usize, comment: u8) -> CutLine
    requires { at < length s.now }
    ensures { result ≡ cut_from s.now at comment }
{
    let stop = text_stop(s, at, comment);
    let whole = line_to(s, at, line_end(s, stop));
    let end = stop.min(whole.end);
    let left = words::trimmed(&s[at..end]);
    CutLine {
        whole: whole,
        cut: at + left,
    }
}
