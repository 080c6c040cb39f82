// A name's key: a number that a name and an earlier one share where the two are compared and equal.
ghost use Rattle.std.specs.Prelude.{◌≡◌, ◌<◌};
ghost use Rattle.laws.specs.Lists.{part};
ghost use Rattle.name_checks.specs.Lookup.{start_of, section_behind, key_from};

use crate::clashes::{is_enclosed, model_or_selector};
use crate::places::{OF_MODEL, within};
use words::Word;

// The same name in two sections seldom meets in one bit.
const SPREAD: usize = 3317;

// Where the key of a name of kind k starts: names that are compared share it.
fn start_of(k: usize, section: usize) -> usize
    ensures { result ≡ start_of k section }
{
    if model_or_selector(k) {
        return OF_MODEL;
    }
    if is_enclosed(k) {
        return section % 65536 * SPREAD;
    }
    k
}

// The place of the section that a pin or a selector row right behind place i lies in, k being the kind at place i.
pub fn section_behind(k: usize, i: usize, section: usize) -> usize
    ensures { result ≡ section_behind k i section }
{
    if is_enclosed(k) {
        return section;
    }
    i
}

// The key of these bytes, from where it starts.
fn name_key(start: usize, name: &[u8]) -> usize
    ensures { result ≡ key_from start name.now }
{
    let mut key = start;
    for &b in name {
        key = key % 67108864 * 33 + usize::from(b);
    }
    key
}

// The key of a name of kind k, in this section.
pub fn key_of(src: &[u8], name: Word, k: usize, section: usize) -> usize
    ensures { result ≡ key_from (start_of k section) (part name.start name.end src.now) }
{
    let start = start_of(k, section);
    let w = within(src, name);
    let a = w.start;
    let e = w.end;
    name_key(start, &src[a..e])
}
