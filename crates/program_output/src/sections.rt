// The sections of a file in file order: each record of a component, a selector or a model holds its section's number, as its first word.
ghost use Rattle.std.specs.Prelude.{◌≡◌, ◌+◌, ◌/◌, length};
ghost use Rattle.record_words.specs.Records.{component_size, selector_size, model_size};
ghost use Rattle.program_output.specs.Sections.{with_section};

use crate::tables::records_in;
use record_words::{COMPONENT_WORDS, MODEL_WORDS, SELECTOR_WORDS};
use table_records::values::{number_at, record_at};

// How many sections there are: one a record.
pub fn sections_in(components: &[u64], selectors: &[u64], models: &[u64]) -> usize
    ensures { result ≡ length components.now / component_size + length selectors.now / selector_size + length models.now / model_size }
{
    components.len() / COMPONENT_WORDS
        + selectors.len() / SELECTOR_WORDS
        + models.len() / MODEL_WORDS
}

// The place of the record of section k in a table whose records have `size` words.
pub fn with_section(table: &[u64], size: usize, k: usize) -> Option<usize>
    ensures { result ≡ with_section size table.now k }
{
    let n = records_in(table, size);
    for i in 0..n {
        if number_at(record_at(table, size, i), 0) == k as u64 {
            return Some(i);
        }
    }
    None
}
