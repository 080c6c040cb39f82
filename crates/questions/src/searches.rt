// The place of the record that is sought in a table of words, from the top.
ghost use Rattle.std.specs.Prelude.{◌≡◌, ◌-◌, ◌/◌, ◌≤◌, ◌<◌, length, drop};
ghost use Rattle.table_records.specs.Values.{record_at};
ghost use Rattle.table_records.specs.Records.{name_from};
ghost use Rattle.questions.specs.Named.{is_named};
ghost use Rattle.questions.specs.Searched.{first_place, places_in, in_span, pin_named, model_named, selector_named, component_with};

use crate::names::has_name;
use record_words::{COMPONENT_WORDS, MODEL_WORDS, PIN_WORDS, SELECTOR_WORDS};
use records::Span;

// The first of n records from a place on whose name, at a word of theirs, is made of these bytes.
fn first_named(
    table: &[u64],
    size: usize,
    word: usize,
    from: usize,
    n: usize,
    name: &[u8],
) -> Option<usize>
    requires { n ≤ length table.now / size - from }
    ensures { result ≡ first_place (λ k. is_named (name_from (drop word (record_at size table.now k))) name.now) from n }
{
    for i in 0..n {
        let words = table_records::values::record_at(table, size, from + i);
        if has_name(table_records::values::words_from(words, word), name) {
            return Some(from + i);
        }
    }
    None
}

// How many places of a span are there in a table of n records.
fn places_in(s: Span, n: usize) -> usize
    ensures { result ≡ places_in s n }
{
    s.count.min(n.saturating_sub(s.start))
}

// Whether place k is one of a span's.
pub fn in_span(s: Span, k: usize) -> bool
    ensures { result ≡ in_span s k }
{
    s.start <= k && k - s.start < s.count
}

// The pin of that name in a component.
pub fn pin_named(components: &[u64], pins: &[u64], component: usize, name: &[u8]) -> Option<usize>
    ensures { result ≡ pin_named components.now pins.now component name.now }
{
    let s = table_records::tables::component_in(components, component).pins;
    let n = places_in(s, pins.len() / PIN_WORDS);
    first_named(pins, PIN_WORDS, 0, s.start, n, name)
}

// The model of that name.
pub fn model_named(models: &[u64], name: &[u8]) -> Option<usize>
    ensures { result ≡ model_named models.now name.now }
{
    first_named(models, MODEL_WORDS, 1, 0, models.len() / MODEL_WORDS, name)
}

// The selector of that name.
pub fn selector_named(selectors: &[u64], name: &[u8]) -> Option<usize>
    ensures { result ≡ selector_named selectors.now name.now }
{
    first_named(
        selectors,
        SELECTOR_WORDS,
        1,
        0,
        selectors.len() / SELECTOR_WORDS,
        name,
    )
}

// The component that has the pin at a place.
pub fn component_with(components: &[u64], pin: usize) -> Option<usize>
    ensures { result ≡ component_with components.now pin }
{
    for k in 0..components.len() / COMPONENT_WORDS {
        if in_span(table_records::tables::component_in(components, k).pins, pin) {
            return Some(k);
        }
    }
    None
}
