// Texts as they lie in a record: their bytes, then zeros. What is longer than the record is cut. And what stands where nothing is given.
ghost use Rattle.std.specs.Prelude.{◌≡◌, ◌<◌, []};
ghost use Rattle.records.specs.Stored.{text_laid, name_laid, words_laid, no_cells};

use crate::{Name, Text, Triple, Words};
use decimal::Cell;

pub fn text_of<const N: usize>(w: &[u8]) -> Text<N>
    requires { N < 256 }
    ensures { result ≡ text_laid N w.now }
{
    let n = N.min(w.len());
    let mut bytes = [0u8; N];
    bytes[..n].copy_from_slice(&w[..n]);
    Text {
        bytes: bytes,
        len: n as u8,
    }
}

pub fn name_of(w: &[u8]) -> Name
    ensures { result ≡ name_laid w.now }
{
    text_of::<40>(w)
}

pub fn words_of(w: &[u8]) -> Words
    ensures { result ≡ words_laid w.now }
{
    text_of::<120>(w)
}

pub fn no_name() -> Name
    ensures { result ≡ name_laid [] }
{
    text_of(&[])
}

pub fn no_words() -> Words
    ensures { result ≡ words_laid [] }
{
    text_of(&[])
}

pub fn no_cells() -> Triple
    ensures { result ≡ no_cells }
{
    Triple {
        typ: Cell::Missing,
        min: Cell::Missing,
        max: Cell::Missing,
    }
}
