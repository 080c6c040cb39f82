// Values as words: bytes eight to a word, the two numbers of a slope, and a number for what may be left out.
ghost use Rattle.std.specs.Prelude.{◌≡◌, ◌+◌, ◌≤◌, length};
ghost use Rattle.record_words.specs.Values.{eight_at, dividend_word, divisor_word, polarity_number, enable_number};

use decimal::Cell;
use records::{Enable, Polarity, RampCell};

// ---- eight bytes of a text, the first one lowest

pub(crate) fn eight_at(bytes: &[u8], i: usize) -> u64
    requires { i + 8 ≤ length bytes.now }
    ensures { result ≡ eight_at bytes.now i }
{
    u64::from_le_bytes([
        bytes[i],
        bytes[i + 1],
        bytes[i + 2],
        bytes[i + 3],
        bytes[i + 4],
        bytes[i + 5],
        bytes[i + 6],
        bytes[i + 7],
    ])
}

// ---- a slope: its dividend and its divisor

pub(crate) fn dividend_word(c: RampCell) -> u64
    ensures { result ≡ dividend_word c }
{
    match c {
        RampCell::Ratio { dividend, divisor } => decimal::word_of(Cell::Number(dividend)),
        RampCell::Absent => decimal::word_of(Cell::Missing),
    }
}

pub(crate) fn divisor_word(c: RampCell) -> u64
    ensures { result ≡ divisor_word c }
{
    match c {
        RampCell::Ratio { dividend, divisor } => decimal::word_of(Cell::Number(divisor)),
        RampCell::Absent => decimal::word_of(Cell::Missing),
    }
}

// ---- what may be left out: 0, or the case's own number behind it

pub(crate) fn polarity_number(p: Option<Polarity>) -> u64
    ensures { result ≡ polarity_number p }
{
    match p {
        None => 0,
        Some(Polarity::Inverting) => 1,
        Some(Polarity::NonInverting) => 2,
    }
}

pub(crate) fn enable_number(e: Option<Enable>) -> u64
    ensures { result ≡ enable_number e }
{
    match e {
        None => 0,
        Some(Enable::ActiveHigh) => 1,
        Some(Enable::ActiveLow) => 2,
    }
}
