// The records of the lent tables, each by its place in its table.
ghost use Rattle.std.specs.Prelude.{◌≡◌};
ghost use Rattle.from_notes.specs.Made.{component_at, pin_at, selector_at, choice_at};

use crate::places::{name_noted, place_noted, row_noted, section_noted, section_word};
use note_words::{CHOICES_FROM, COMPONENTS_FROM, PINS_FROM, SECTION_START, SELECTORS_FROM};
use records::{Choice, Component, Pin, Selector};

pub fn component_at(src: &[u8], notes: &[u16], i: usize) -> Component
    ensures { result ≡ component_at src.now notes.now i }
{
    let section = place_noted(notes, COMPONENTS_FROM, i);
    let start = section_word(notes, COMPONENTS_FROM, i, SECTION_START);
    let c = section_noted(src, notes, COMPONENTS_FROM, i);
    let name = name_noted(src, notes, COMPONENTS_FROM, i);
    component_records::component_of(src, c, name, section, start)
}

pub fn pin_at(src: &[u8], notes: &[u16], i: usize) -> Pin
    ensures { result ≡ pin_at src.now notes.now i }
{
    component_records::pin_of(row_noted(src, notes, PINS_FROM, i))
}

pub fn selector_at(src: &[u8], notes: &[u16], i: usize) -> Selector
    ensures { result ≡ selector_at src.now notes.now i }
{
    let section = place_noted(notes, SELECTORS_FROM, i);
    let start = section_word(notes, SELECTORS_FROM, i, SECTION_START);
    let c = section_noted(src, notes, SELECTORS_FROM, i);
    let name = name_noted(src, notes, SELECTORS_FROM, i);
    component_records::selector_of(src, c, name, section, start)
}

pub fn choice_at(src: &[u8], notes: &[u16], i: usize) -> Choice
    ensures { result ≡ choice_at src.now notes.now i }
{
    component_records::choice_of(row_noted(src, notes, CHOICES_FROM, i))
}
