// Names used twice: pairs of names, a later one whose key was seen and each earlier one, the nearest first.
ghost use Rattle.std.specs.Prelude.{◌≡◌, ◌≤◌};
ghost use Rattle.laws.specs.Lists.{part, eqs};
ghost use Rattle.notes.specs.Noted.{clash};
ghost use Rattle.note_words.specs.Store.{names_held, most_names, name_at};
ghost use Rattle.name_checks.specs.Lookup.{place_at, model_or_selector, rivals, enclosed, meeting, meets_to, entries_to};

use crate::Meeting;
use crate::keys::{key_of, section_behind};
use crate::places::{
    OF_CHOICE, OF_MODEL, OF_PIN, OF_SELECTOR, kind_at, line_at, part_at, same_parts,
};
use crate::seen::{SEEN_WORDS, see, to_meet};
use note_words::NAME;
use words::Word;

pub fn model_or_selector(k: usize) -> bool
    ensures { result ≡ model_or_selector k }
{
    if k == OF_MODEL {
        return true;
    }
    k == OF_SELECTOR
}

// Names of these kinds must differ.
fn are_rivals(k: usize, l: usize) -> bool
    ensures { result ≡ rivals k l }
{
    if model_or_selector(k) {
        return model_or_selector(l);
    }
    k == l
}

// Pins and selector rows, which are compared within their section.
pub fn is_enclosed(k: usize) -> bool
    ensures { result ≡ enclosed k }
{
    if k == OF_PIN {
        return true;
    }
    k == OF_CHOICE
}

// A name of kind k, and the earlier one at place j.
fn meet(src: &[u8], notes: &[u16], k: usize, name: Word, j: usize) -> Meeting
    requires { j ≤ names_held }
    ensures { result ≡ meeting k (place_at notes.now j) (eqs (part name.start name.end src.now) (name_at src.now notes.now j)) }
{
    if are_rivals(k, kind_at(notes, j)) {
        let earlier = part_at(notes, j, NAME);
        if same_parts(src, name, earlier) {
            return Meeting::Equal;
        }
        return Meeting::Differing;
    }
    if is_enclosed(k) {
        return Meeting::Beyond;
    }
    Meeting::Differing
}

// A name of kind k equals one of the first j that it is to be compared with, the nearest taken first.
fn is_used(src: &[u8], notes: &[u16], k: usize, name: Word, j: usize) -> bool
    requires { j ≤ names_held }
    ensures { result ≡ meets_to src.now notes.now k (part name.start name.end src.now) j }
{
    for earlier in (0..j).rev() {
        match meet(src, notes, k, name, earlier) {
            Meeting::Equal => return true,
            Meeting::Differing => {}
            Meeting::Beyond => return false,
        }
    }
    false
}

// The first name that an earlier one equals, by its line.
pub fn first_clash(src: &[u8], notes: &[u16], n: usize) -> Option<u64>
    requires { n ≤ most_names }
    ensures { result ≡ clash (entries_to src.now notes.now n) }
{
    let mut seen = [0u64; SEEN_WORDS];
    let mut section = 0;
    for i in 0..n {
        let k = kind_at(notes, i);
        let name = part_at(notes, i, NAME);
        let key = key_of(src, name, k, section);
        if is_used(src, notes, k, name, to_meet(&seen, key, i)) {
            return Some(line_at(src, notes, i));
        }
        see(&mut seen, key);
        section = section_behind(k, i, section);
    }
    None
}
