// Where a line's words and its argument lie in the file.
ghost use Rattle.std.specs.Prelude.{◌≤◌, ◌<◌, length};
ghost use Rattle.noted_events.specs.Places.{FirstIn, ArgumentIn};

use words::Word;

// The first word from a up to e; empty if there is none.
pub fn first_in(src: &[u8], a: usize, e: usize) -> Word
    requires { (a ≤ e) × (e ≤ length src.now) }
    ensures { FirstIn src.now a e result }
{
    let w = words::word_at(&src[a..e], 0);
    Word {
        start: a + w.start,
        end: a + w.end,
    }
}

// The place of the argument of the keyword line from a up to e.
pub fn argument_in(src: &[u8], a: usize, e: usize) -> usize
    requires { (a < e) × (e ≤ length src.now) }
    ensures { ArgumentIn src.now a e result }
{
    let w = &src[a..e];
    let stop = words::find(w, 1, b']');
    if w.len() <= stop {
        return e;
    }
    a + words::skip_blanks(w, stop + 1)
}
