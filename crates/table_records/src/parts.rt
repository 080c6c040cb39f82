// Parts of records in their words, from the front of what is lent.
ghost use Rattle.std.specs.Prelude.{◌≡◌, ◌<◌, drop};
ghost use Rattle.table_records.specs.Records.{text_in, name_from, text_from, span_from, triple_from, slopes_from, table_from, range_from, split_from, ramp_from};

use crate::values::{cell_at, flag_in, number_at, put_bytes, slope_in, words_from};
use records::{Name, RampTable, RampTriple, Range, Span, Split, Table, Text, Triple, Words};

// A text of N bytes, eight to a word; behind them stands how many of them are the text's.
fn text_in<const N: usize>(words: &[u64]) -> Text<N>
    requires { N < 256 }
    ensures { result ≡ text_in N words.now }
{
    let mut bytes = [0u8; N];
    put_bytes(&mut bytes, words);
    let len = number_at(words, N / 8).min(N as u64);
    Text {
        bytes: bytes,
        len: len as u8,
    }
}

pub fn name_from(words: &[u64]) -> Name
    ensures { result ≡ name_from words.now }
{
    text_in(words)
}

pub(crate) fn text_from(words: &[u64]) -> Words
    ensures { result ≡ text_from words.now }
{
    text_in(words)
}

pub fn span_from(words: &[u64]) -> Span
    ensures { result ≡ span_from words.now }
{
    Span {
        start: number_at(words, 0) as usize,
        count: number_at(words, 1) as usize,
    }
}

pub fn triple_from(words: &[u64]) -> Triple
    ensures { result ≡ triple_from words.now }
{
    Triple {
        typ: cell_at(words, 0),
        min: cell_at(words, 1),
        max: cell_at(words, 2),
    }
}

fn slopes_from(words: &[u64]) -> RampTriple
    ensures { result ≡ slopes_from words.now }
{
    RampTriple {
        typ: slope_in(cell_at(words, 0), cell_at(words, 1)),
        min: slope_in(cell_at(words, 2), cell_at(words, 3)),
        max: slope_in(cell_at(words, 4), cell_at(words, 5)),
    }
}

pub(crate) fn table_from(words: &[u64]) -> Table
    ensures { result ≡ table_from words.now }
{
    Table {
        given: flag_in(number_at(words, 0)),
        rows: span_from(words_from(words, 1)),
    }
}

pub(crate) fn range_from(words: &[u64]) -> Range
    ensures { result ≡ range_from words.now }
{
    Range {
        given: flag_in(number_at(words, 0)),
        cells: triple_from(words_from(words, 1)),
    }
}

pub(crate) fn split_from(words: &[u64]) -> Split
    ensures { result ≡ split_from words.now }
{
    Split {
        pullup: range_from(words),
        pulldown: range_from(words_from(words, 4)),
        power: range_from(words_from(words, 8)),
        ground: range_from(words_from(words, 12)),
    }
}

pub(crate) fn ramp_from(words: &[u64]) -> RampTable
    ensures { result ≡ ramp_from words.now }
{
    RampTable {
        given: flag_in(number_at(words, 0)),
        rise: slopes_from(words_from(words, 1)),
        fall: slopes_from(words_from(words, 7)),
        load: cell_at(words, 13),
    }
}

// ---- from word k on

pub(crate) fn name_at(words: &[u64], k: usize) -> Name
    ensures { result ≡ name_from (drop k words.now) }
{
    name_from(words_from(words, k))
}

pub(crate) fn span_at(words: &[u64], k: usize) -> Span
    ensures { result ≡ span_from (drop k words.now) }
{
    span_from(words_from(words, k))
}

pub(crate) fn triple_at(words: &[u64], k: usize) -> Triple
    ensures { result ≡ triple_from (drop k words.now) }
{
    triple_from(words_from(words, k))
}

pub(crate) fn table_at(words: &[u64], k: usize) -> Table
    ensures { result ≡ table_from (drop k words.now) }
{
    table_from(words_from(words, k))
}
