// Whether names are the same: by their bytes, each as it lies in its record or in its words; what stands behind a name's length counts for nothing.
ghost use Rattle.std.specs.Prelude.{◌≡◌, take, get_or, min};
ghost use Rattle.line_rules.specs.Fields.{needs_no_model};
ghost use Rattle.table_records.specs.Records.{name_from};
ghost use Rattle.questions.specs.Named.{name_bytes, is_named, same_name};

use records::Name;

// The first n bytes of a text; all of them where it has no more.
pub(crate) fn first_bytes(bytes: &[u8], n: u8) -> &[u8]
    ensures { result.now ≡ take n bytes.now }
{
    &bytes[..bytes.len().min(n as usize)]
}

// Whether a name is made of exactly these bytes.
pub fn is_named(a: Name, w: &[u8]) -> bool
    ensures { result ≡ is_named a w.now }
{
    words::same(first_bytes(&a.bytes, a.len), w)
}

// Whether two names hold the same bytes.
pub fn same_name(a: Name, b: Name) -> bool
    ensures { result ≡ same_name a b }
{
    is_named(a, first_bytes(&b.bytes, b.len))
}

// Whether a name is one of the words for a pin that needs no model.
pub(crate) fn needs_no_model(name: Name) -> bool
    ensures { result ≡ needs_no_model (name_bytes name) }
{
    named_lines::needs_no_model(first_bytes(&name.bytes, name.len))
}

// How many bytes the name in these words has: never more than its 40.
fn name_length(words: &[u64]) -> usize
    ensures { result ≡ min (get_or words.now 5 0) 40 }
{
    table_records::values::number_at(words, 5).min(40) as usize
}

// Whether the name in these words is made of exactly these bytes. Most names differ in length already.
pub(crate) fn has_name(words: &[u64], name: &[u8]) -> bool
    ensures { result ≡ is_named (name_from words.now) name.now }
{
    if name_length(words) != name.len() {
        return false;
    }
    for (i, b) in name.iter().enumerate() {
        if table_records::values::byte_in(words, i) != *b {
            return false;
        }
    }
    true
}
