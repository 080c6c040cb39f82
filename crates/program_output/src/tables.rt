// How long a program's tables are, and the parts of them that are in use.
ghost use Rattle.std.specs.Prelude.{◌≡◌, ◌+◌, ◌/◌, ◌≤◌, min, length, take};
ghost use Rattle.program_output.specs.Kept.{words_in};

use record_words::{
    CHOICE_WORDS, COMPONENT_WORDS, MODEL_WORDS, PIN_WORDS, ROW_WORDS, SELECTOR_WORDS,
    WAVEFORM_WORDS,
};
use records::{
    Counts, MOST_CHOICES, MOST_COMPONENTS, MOST_MODELS, MOST_PINS, MOST_ROWS, MOST_SELECTORS,
    MOST_WAVEFORMS, Span,
};

// ---- the words of tables at document 01's bounds

pub const COMPONENT_TABLE: usize = MOST_COMPONENTS * COMPONENT_WORDS;

pub const PIN_TABLE: usize = MOST_PINS * PIN_WORDS;

pub const SELECTOR_TABLE: usize = MOST_SELECTORS * SELECTOR_WORDS;

pub const CHOICE_TABLE: usize = MOST_CHOICES * CHOICE_WORDS;

pub const MODEL_TABLE: usize = MOST_MODELS * MODEL_WORDS;

pub const WAVEFORM_TABLE: usize = MOST_WAVEFORMS * WAVEFORM_WORDS;

// As many rows as loading asks for.
pub const ROW_TABLE: usize = MOST_ROWS * ROW_WORDS;

// ---- tables that were read

// Their words, table by table. What stands behind the records in use says nothing.
#[derive(Clone, Copy)]
pub struct Tables<'a> {
    pub components: &'a [u64],
    pub pins: &'a [u64],
    pub selectors: &'a [u64],
    pub choices: &'a [u64],
    pub models: &'a [u64],
    pub waveforms: &'a [u64],
    pub rows: &'a [u64],
}

impl<'a> Tables<'a> {
    ghost use Rattle.program_output.specs.Tables.{InUse};

    // The records in use alone; of rows all, since spans tell which are.
    pub fn in_use(self, counts: Counts) -> Tables<'a>
        ensures { InUse self.entry counts result }
    {
        Tables {
            components: used(self.components, COMPONENT_WORDS, counts.components),
            pins: used(self.pins, PIN_WORDS, counts.pins),
            selectors: used(self.selectors, SELECTOR_WORDS, counts.selectors),
            choices: used(self.choices, CHOICE_WORDS, counts.choices),
            models: used(self.models, MODEL_WORDS, counts.models),
            waveforms: used(self.waveforms, WAVEFORM_WORDS, counts.waveforms),
            rows: self.rows,
        }
    }
}

// ---- parts of tables: a record has `size` words

// How many whole records a table has.
pub fn records_in(table: &[u64], size: usize) -> usize
    ensures { result ≡ length table.now / size }
{
    if size == 0 {
        return 0;
    }
    table.len() / size
}

// How many words so many records have, in a table of so many words: all of them where it has no more records.
pub fn words_in(words: usize, size: usize, count: usize) -> usize
    ensures value { result ≡ words_in words size count }
    ensures upper_bound { result ≤ words }
{
    if size == 0 {
        return words;
    }
    if count < words / size {
        return count * size;
    }
    words
}

// The words of the first records of a table.
pub fn used(table: &[u64], size: usize, count: usize) -> &[u64]
    ensures { result.now ≡ take (words_in (length table.now) size count) table.now }
{
    let n = words_in(table.len(), size, count);
    &table[0..n]
}

// Where a span ends in a table of n records.
pub fn end_in(s: Span, n: usize) -> usize
    ensures { result ≡ min (s.start + s.count) n }
{
    if n < s.start {
        return n;
    }
    if s.count < n - s.start {
        return s.start + s.count;
    }
    n
}
