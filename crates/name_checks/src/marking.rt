// Names not found, and what nobody lists: each pin and selector row marks what it names.
ghost use Rattle.std.specs.Prelude.{◌≡◌, ◌&&◌, ◌≤◌, ◌<◌, ltb};
ghost use Rattle.notes.specs.Noted.{clash};
ghost use Rattle.note_words.specs.Store.{names_held, noted_line};
ghost use Rattle.name_checks.specs.Lookup.{reaches, reaches_at, target_to, excused, model_at, place_at, missing, Clear, with_mark, entries_to, Listed, Marked, unmarked, unmarked_from, Concludes};

use crate::clashes::{is_enclosed, model_or_selector};
use crate::listing::{SLOTS, list_names, target_key};
use crate::places::{
    OF_CHOICE, OF_MODEL, OF_PIN, OF_SELECTOR, kind_at, line_at, part_at, same_parts, within,
};
use crate::seen::{SEEN_WORDS, is_seen};
use note_words::{MOST_NAMES, NAME, ROW_MODEL};
use records::Fault;

// A pin names a model or a selector, a selector row a model.
fn may_name(k: usize, l: usize) -> bool
    ensures { result ≡ reaches k l }
{
    if l == OF_MODEL {
        return is_enclosed(k);
    }
    if l == OF_SELECTOR {
        return k == OF_PIN;
    }
    false
}

// The name at place i names the one at place j.
fn names_it(src: &[u8], notes: &[u16], i: usize, j: usize) -> bool
    requires { (i ≤ names_held) × (j ≤ names_held) }
    ensures { result ≡ reaches_at src.now notes.now i j }
{
    let k = kind_at(notes, i);
    if may_name(k, kind_at(notes, j)) {
        let model = part_at(notes, i, ROW_MODEL);
        let name = part_at(notes, j, NAME);
        return same_parts(src, model, name);
    }
    false
}

// The last of n names that the one at place i names. Most files have their models behind the pins.
fn search_target(src: &[u8], notes: &[u16], n: usize, i: usize) -> Option<usize>
    requires { (n ≤ names_held) × (i ≤ names_held) }
    ensures { result ≡ target_to src.now notes.now i n }
{
    for j in (0..n).rev() {
        if names_it(src, notes, i, j) {
            return Some(j);
        }
    }
    None
}

// The name at place i names the one at place j, which is one of n.
fn is_target(src: &[u8], notes: &[u16], n: usize, i: usize, j: usize) -> bool
    requires { (n ≤ names_held) × (i ≤ names_held) }
    ensures { result ≡ (ltb j n && reaches_at src.now notes.now i j) }
{
    if j < n {
        return names_it(src, notes, i, j);
    }
    false
}

fn place_of(slot: u16) -> usize
    ensures { result ≡ slot }
{
    slot as usize
}

// What the name at place i names, of n: nothing where the key was not seen, else the name in the key's slot, else what is searched for.
fn find_target(
    src: &[u8],
    notes: &[u16],
    n: usize,
    i: usize,
    seen: &[u64; SEEN_WORDS],
    slots: &[u16; SLOTS],
) -> Option<usize>
    requires n_le_names_held { (n ≤ names_held) × (i ≤ names_held) }
    requires n_value { (clash (entries_to src.now notes.now n) ≡ None) × Listed src.now notes.now n seen.now }
    ensures { result ≡ target_to src.now notes.now i n }
{
    let model = part_at(notes, i, ROW_MODEL);
    let key = target_key(src, model);
    if !is_seen(seen, key) {
        return None;
    }
    let place = place_of(slots[key % SLOTS]);
    if is_target(src, notes, n, i, place) {
        return Some(place);
    }
    search_target(src, notes, n, i)
}

// The name at place i is at fault.
fn faulty(src: &[u8], notes: &[u16], number: u8, i: usize) -> Result<(), Fault>
    requires { i ≤ names_held }
    ensures { result ≡ Err (record { number = number; line = noted_line src.now notes.now i; column = 0 }) }
{
    Err(Fault {
        number: number,
        line: line_at(src, notes, i),
        column: 0,
    })
}

// Nothing need be found: of a section, and of a pin that needs no model.
fn is_excused(src: &[u8], notes: &[u16], i: usize) -> bool
    requires { i ≤ names_held }
    ensures { result ≡ excused (place_at notes.now i) (model_at src.now notes.now i) }
{
    let k = kind_at(notes, i);
    if k == OF_PIN {
        let w = within(src, part_at(notes, i, ROW_MODEL));
        let a = w.start;
        let e = w.end;
        return named_lines::needs_no_model(&src[a..e]);
    }
    k != OF_CHOICE
}

// Marks what the name at place i names. The place of the first from there on that names nothing, given that of the later ones.
fn mark_target(
    src: &[u8],
    notes: &[u16],
    n: usize,
    i: usize,
    seen: &[u64; SEEN_WORDS],
    slots: &[u16; SLOTS],
    marks: &mut [u8; MOST_NAMES],
    later: usize,
) -> usize
    requires n_le_names_held { (n ≤ names_held) × (i < n) }
    requires n_value { (clash (entries_to src.now notes.now n) ≡ None) × Listed src.now notes.now n seen.now }
    ensures value { result ≡ missing src.now notes.now i later (target_to src.now notes.now i n) }
    ensures marks_after { marks.new ≡ with_mark marks.old (target_to src.now notes.now i n) }
{
    if !is_enclosed(kind_at(notes, i)) {
        return later;
    }
    let target = find_target(src, notes, n, i, seen, slots);
    let Some(j) = target else {
        if is_excused(src, notes, i) {
            return later;
        }
        return i;
    };
    marks[j] = 1;
    later
}

// From the last name up to the first: each marks what it names. The place of the first that names nothing; n if there is none.
fn mark_targets(src: &[u8], notes: &[u16], n: usize, marks: &mut [u8; MOST_NAMES]) -> usize
    requires n_le_names_held { n ≤ names_held }
    requires n_value { clash (entries_to src.now notes.now n) ≡ None }
    requires clear { Clear marks.old n }
    ensures { Marked src.now notes.now marks.new n result }
{
    let mut seen = [0u64; SEEN_WORDS];
    let mut slots = [0u16; SLOTS];
    list_names(src, notes, n, &mut seen, &mut slots);
    let mut first = n;
    for i in (0..n).rev() {
        first = mark_target(src, notes, n, i, &seen, &slots, marks, first);
    }
    first
}

// Place j where the name there is a model's or a selector's and not marked, else that of the later ones.
fn unlisted_at(notes: &[u16], marks: &[u8; MOST_NAMES], j: usize, later: usize) -> usize
    requires { j ≤ names_held }
    ensures { result ≡ unmarked notes.now marks.now j later }
{
    if model_or_selector(kind_at(notes, j)) {
        if marks[j] == 1 {
            return later;
        }
        return j;
    }
    later
}

// The place of the first model or selector that is not marked; n if there is none.
fn first_unlisted(notes: &[u16], marks: &[u8; MOST_NAMES], n: usize) -> usize
    requires { n ≤ names_held }
    ensures { result ≡ unmarked_from notes.now marks.now 0 n }
{
    let mut first = n;
    for j in (0..n).rev() {
        first = unlisted_at(notes, marks, j, first);
    }
    first
}

// The first name that is not found; where all are, the first section that nobody lists.
pub fn last_fault(src: &[u8], notes: &[u16], n: usize) -> Result<(), Fault>
    requires n_le_names_held { n ≤ names_held }
    requires n_value { clash (entries_to src.now notes.now n) ≡ None }
    ensures { Concludes (entries_to src.now notes.now n) result }
{
    let mut marks = [0u8; MOST_NAMES];
    let missing = mark_targets(src, notes, n, &mut marks);
    if missing < n {
        return faulty(src, notes, 15, missing);
    }
    let unlisted = first_unlisted(notes, &marks, n);
    if unlisted < n {
        return faulty(src, notes, 16, unlisted);
    }
    Ok(())
}
