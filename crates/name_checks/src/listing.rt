// The models and selectors by their keys: where what a pin or a selector row names is looked for first.
ghost use Rattle.std.specs.Prelude.{◌≡◌, ◌≤◌};
ghost use Rattle.laws.specs.Lists.{part};
ghost use Rattle.note_words.specs.Store.{names_held};
ghost use Rattle.name_checks.specs.Lookup.{target_key, with_key, with_slot, keys_to, slots_to};

use crate::clashes::model_or_selector;
use crate::keys::key_of;
use crate::places::{OF_MODEL, kind_at, part_at};
use crate::seen::{SEEN_WORDS, see};
use note_words::NAME;
use words::Word;

// A slot for each remainder of a key, with the place of a name that has such a key: 64 names seldom meet in one.
pub const SLOTS: usize = 512;

// The key of a model's or a selector's name, and of a word that names it.
pub fn target_key(src: &[u8], name: Word) -> usize
    ensures { result ≡ target_key (part name.start name.end src.now) }
{
    key_of(src, name, OF_MODEL, 0)
}

// The name at place i is listed where it is a model's or a selector's.
fn list_name(
    src: &[u8],
    notes: &[u16],
    i: usize,
    seen: &mut [u64; SEEN_WORDS],
    slots: &mut [u16; SLOTS],
)
    requires { i ≤ names_held }
    ensures seen_after { seen.new ≡ with_key src.now notes.now seen.old i }
    ensures slots_after { slots.new ≡ with_slot src.now notes.now slots.old i }
{
    if !model_or_selector(kind_at(notes, i)) {
        return;
    }
    let name = part_at(notes, i, NAME);
    let key = target_key(src, name);
    see(seen, key);
    slots[key % SLOTS] = i as u16;
}

// The first n names are listed.
pub fn list_names(
    src: &[u8],
    notes: &[u16],
    n: usize,
    seen: &mut [u64; SEEN_WORDS],
    slots: &mut [u16; SLOTS],
)
    requires { n ≤ names_held }
    ensures seen_after { seen.new ≡ keys_to src.now notes.now seen.old n }
    ensures slots_after { slots.new ≡ slots_to src.now notes.now slots.old n }
{
    for i in 0..n {
        list_name(src, notes, i, seen, slots);
    }
}
