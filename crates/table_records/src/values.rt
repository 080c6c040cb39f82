// Values in the words of a record. A word that is not there is 0, a cell that is not there is missing.
ghost use Rattle.std.specs.Prelude.{◌≡◌, length, drop, get_or};
ghost use Rattle.laws.specs.Eights.{byte_in, bytes_from};
ghost use Rattle.table_records.specs.Values.{record_at, cell_at, flag_in, location_in, polarity_in, enable_in, edge_in, type_in, slope_in};

use decimal::Cell;
use records::{Edge, Enable, Location, ModelType, Polarity, RampCell};

// ---- words

// The words of the record at place k, each record `size` words; none where no whole record lies there.
pub fn record_at(table: &[u64], size: usize, k: usize) -> &[u64]
    ensures { result.now ≡ record_at size table.now k }
{
    if size == 0 {
        return &table[0..0];
    }
    if k < table.len() / size {
        let from = k * size;
        let end = from + size;
        return &table[from..end];
    }
    &table[0..0]
}

// The words from word k on.
pub fn words_from(words: &[u64], k: usize) -> &[u64]
    ensures { result.now ≡ drop k words.now }
{
    &words[k.min(words.len())..]
}

pub fn number_at(words: &[u64], k: usize) -> u64
    ensures { result ≡ get_or words.now k 0 }
{
    words.get(k).copied().unwrap_or(0)
}

pub fn cell_at(words: &[u64], k: usize) -> Cell
    ensures { result ≡ cell_at words.now k }
{
    match words.get(k) {
        Some(word) => decimal::cell_in(*word),
        None => Cell::Missing,
    }
}

// Byte k of a text: eight lie in a word, the first one lowest.
pub fn byte_in(words: &[u64], k: usize) -> u8
    ensures { result ≡ byte_in words.now k }
{
    ((number_at(words, k / 8) >> (k % 8 * 8)) % 256) as u8
}

// The bytes of a text, as many as are lent.
pub(crate) fn put_bytes(out: &mut [u8], words: &[u64])
    ensures { out.new ≡ bytes_from words.now (length out.old) }
{
    for (i, byte) in out.iter_mut().enumerate() {
        *byte = byte_in(words, i);
    }
}

// ---- the case of a number

pub(crate) fn flag_in(n: u64) -> bool
    ensures { result ≡ flag_in n }
{
    n != 0
}

pub(crate) fn location_in(n: u64) -> Location
    ensures { result ≡ location_in n }
{
    match n {
        1 => Location::AtDie,
        _ => Location::AtPin,
    }
}

pub(crate) fn polarity_in(n: u64) -> Option<Polarity>
    ensures { result ≡ polarity_in n }
{
    match n {
        1 => Some(Polarity::Inverting),
        2 => Some(Polarity::NonInverting),
        _ => None,
    }
}

pub(crate) fn enable_in(n: u64) -> Option<Enable>
    ensures { result ≡ enable_in n }
{
    match n {
        1 => Some(Enable::ActiveHigh),
        2 => Some(Enable::ActiveLow),
        _ => None,
    }
}

pub(crate) fn edge_in(n: u64) -> Edge
    ensures { result ≡ edge_in n }
{
    match n {
        1 => Edge::Falling,
        _ => Edge::Rising,
    }
}

// Document 01's list of model types.
const TYPES: [ModelType; 15] = [
    ModelType::Input,
    ModelType::Output,
    ModelType::InputOutput,
    ModelType::ThreeState,
    ModelType::OpenDrain,
    ModelType::InputOutputOpenDrain,
    ModelType::OpenSink,
    ModelType::InputOutputOpenSink,
    ModelType::OpenSource,
    ModelType::InputOutputOpenSource,
    ModelType::InputEcl,
    ModelType::OutputEcl,
    ModelType::InputOutputEcl,
    ModelType::ThreeStateEcl,
    ModelType::Terminator,
];

pub(crate) fn type_in(n: u64) -> ModelType
    ensures { result ≡ type_in n }
{
    TYPES
        .get(n as usize)
        .copied()
        .unwrap_or(ModelType::Terminator)
}

// A slope's dividend and divisor, or none.
pub(crate) fn slope_in(a: Cell, b: Cell) -> RampCell
    ensures { result ≡ slope_in a b }
{
    match (a, b) {
        (Cell::Number(dividend), Cell::Number(divisor)) => RampCell::Ratio { dividend, divisor },
        _ => RampCell::Absent,
    }
}
