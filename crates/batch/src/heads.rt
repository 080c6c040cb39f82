// Records of standard input: a head of eight numbers, four bytes each, lowest first, and a file.
ghost use Rattle.std.specs.Prelude.{◌≤◌, ◌<◌};

use records::{Lending, Lengths};

// The length of the next file, or none.
#[derive(Clone, Copy)]
pub(crate) enum Next {
    File(usize),
    End,
}

// A byte of the head; what is past the end counts as 0.
fn byte_at(head: &[u8], at: usize) -> usize
    ensures { result < 256 }
{
    if at < head.len() {
        let b = head[at];
        return b as usize;
    }
    0
}

// The four bytes from a place on as a number.
fn number_at(head: &[u8], at: usize) -> usize
    requires { at ≤ 28 }
{
    byte_at(head, at)
        + 256 * byte_at(head, at + 1)
        + 65536 * byte_at(head, at + 2)
        + 16777216 * byte_at(head, at + 3)
}

pub(crate) fn lending_in(head: &[u8]) -> Lending {
    Lending {
        tables: Lengths {
            components: number_at(head, 0),
            pins: number_at(head, 4),
            selectors: number_at(head, 8),
            choices: number_at(head, 12),
            models: number_at(head, 16),
            waveforms: number_at(head, 20),
        },
        rows: number_at(head, 24),
    }
}

fn lesser(a: usize, b: usize) -> usize
    ensures { result ≤ b }
{
    if a < b { a } else { b }
}

// Reads the next record, of a longer file than there is room for only the front; none where the record is cut off.
pub(crate) fn next_file(head: &mut [u8], src: &mut [u8]) -> Next {
    let got = io::read_full(0, head);
    if got < 32 {
        return Next::End;
    }
    let n = lesser(number_at(head, 28), src.len());
    let m = io::read_full(0, &mut src[0..n]);
    if m < n {
        return Next::End;
    }
    Next::File(n)
}
