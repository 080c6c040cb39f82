// Whether the word at fault is one too many: exactly if the line is no 10 without it and what follows it, which is asked of the reader itself.
#![tactic(auto)]

ghost use Rattle.std.specs.Prelude.{◌≡◌, ◌-◌, ◌≤◌, length};
ghost use Rattle.surplus_word.specs.Surplus.{rest_in, rest_at, blanked, is_ten, is_surplus};

use records::{Fault, Lengths};
use text_buffer::Page;
use words::Word;

// The place of a column in a line, if a word stands before it and something at it; else the line's end.
fn rest_in(line: &[u8], column: u64) -> usize
    ensures value { result ≡ rest_in line.now column }
    ensures upper_bound { result ≤ length line.now }
{
    let place = column.saturating_sub(1);
    let first = words::skip_blanks(line, 0);
    if place <= first as u64 {
        return line.len();
    }
    if line.len() as u64 <= place {
        return line.len();
    }
    place as usize
}

// From there to the line's end.
fn find_rest(src: &[u8], fault: Fault) -> Word
    ensures { result ≡ rest_at src.now fault }
{
    let start = refusal_text::places::skip_lines(src, fault.line.saturating_sub(1));
    let line = lines::line_at(src, start);
    let place = rest_in(&src[start..line.end], fault.column);
    Word {
        start: start + place,
        end: line.end,
    }
}

// Blanks where a word lies.
fn put_blanks(file: &mut [u8], word: Word)
    ensures { file.new ≡ blanked file.old word }
{
    if word.start < word.end {
        let mut page = Page::at(file, word.start);
        page.put_repeated(b' ', word.end - word.start);
    }
}

fn is_ten(verdict: Result<(), Fault>, line: u64) -> bool
    ensures { result ≡ is_ten line verdict }
{
    match verdict {
        Ok(()) => false,
        Err(f) => {
            if f.number != 10 {
                return false;
            }
            f.line == line
        }
    }
}

// Whether the word at fault is too many in a file that is checked for tables of these lengths. The rest of its line is blank afterwards.
pub fn is_surplus(file: &mut [u8], l: Lengths, fault: Fault) -> bool
    ensures value { result ≡ is_surplus l file.old fault }
    ensures file_after { file.new ≡ blanked file.old (rest_at file.old fault) }
{
    let rest = find_rest(file, fault);
    if rest.end <= rest.start {
        return false;
    }
    put_blanks(file, rest);
    !is_ten(file_answer::check(file, l).verdict, fault.line)
}
