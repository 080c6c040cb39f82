// A name looked up in one of the lists of names.
#![tactic(auto)]

ghost use Rattle.std.specs.Prelude.{◌≡◌, map};
ghost use Rattle.laws.specs.Lists.{eqs};
ghost use Rattle.words.specs.Spelled.{byte_as};
ghost use Rattle.name_table.specs.Names.{place_from};
ghost use Rattle.name_table.specs.Listed.{names_in};

use words::Spelling;

mod lists; // lists.rt: the names of each list

// The lists of names: keywords; the names of lines; the words that may stand behind a name.
#[derive(Clone, Copy)]
pub enum NameList {
    Keywords,
    ComponentLines,
    PackageLines,
    ModelLines,
    RampLines,
    Fixtures,
    Locations,
    ModelTypes,
    Polarities,
    Enables,
}

// The same bytes, once w is so spelled: names of other lengths are not looked into.
fn same_name(how: Spelling, w: &[u8], name: &[u8]) -> bool
    ensures { result ≡ eqs (map (byte_as how) w.now) name.now }
{
    w.len() == name.len() && words::same_as(how, w, name)
}

// The place of a name in a list, once it is so spelled.
pub fn place_as(how: Spelling, w: &[u8], list: NameList) -> Option<usize>
    ensures { result ≡ place_from 0 (map (byte_as how) w.now) (names_in list) }
{
    for (k, name) in lists::names_in(list).iter().enumerate() {
        if same_name(how, w, name) {
            return Some(k);
        }
    }
    None
}

// The place of a name in a list, as it stands.
pub fn place(w: &[u8], list: NameList) -> Option<usize>
    ensures { result ≡ place_from 0 w.now (names_in list) }
{
    place_as(Spelling::AsItStands, w, list)
}
