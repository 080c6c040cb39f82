// [Model Selector] and [Component], from behind the keyword to the end of the section.
ghost use Rattle.std.specs.Prelude.{◌≡◌, List, ℕ, ◌≤◌, length};
ghost use Rattle.laws.specs.Lists.{front};
ghost use Rattle.keywords.specs.declared.Keyword.TheVariants.{InComponent};
ghost use Rattle.keywords.specs.declared.ComponentPart.TheVariants.{Package, Pin};
ghost use Rattle.cut_lines.specs.Cursors.{rest, Placed};
ghost use Rattle.rules.specs.Reading.{is_within, pins_in, component_in, choices_in};
ghost use Rattle.records.specs.Stored.{name_laid};
ghost use Rattle.component_records.specs.Views.{no_parts, parts_in, PartIs};

use crate::lists::{Boxes, Sites};
use cut_lines::Cursor;
use keywords::{ComponentPart, Keyword};
use records::{Component, Name, Selector, Span, name_of, no_cells, no_name};

pub fn selector_of(src: &[u8], c: Cursor, name: &[u8], section: usize, start: usize) -> Selector
    requires { Placed src.now c }
    ensures { result ≡ record { section = section; name = name_laid name.now; choices = record { start = start; count = length (choices_in (front is_within (rest src.now c))) } } }
{
    let rows = lines_under::count_lines(src, c);
    Selector {
        section,
        name: name_of(name),
        choices: Span {
            start,
            count: rows.count,
        },
    }
}

// What a component's keywords give: pins is how many rows stand under [Pin].
#[derive(Clone, Copy)]
pub struct Parts {
    pub manufacturer: Name,
    pub boxes: Boxes,
    pub pins: usize,
}

#[derive(Clone, Copy)]
pub struct PartRead {
    pub parts: Parts,
    pub next: Cursor,
}

impl Parts {
    fn none() -> Parts
        ensures { result ≡ no_parts }
    {
        Parts {
            manufacturer: no_name(),
            boxes: Boxes {
                resistance: no_cells(),
                inductance: no_cells(),
                capacitance: no_cells(),
            },
            pins: 0,
        }
    }

    fn with_package(self, src: &[u8], c: Cursor) -> PartRead
        requires placed { Placed src.now c }
        requires pins_le_at { self.pins ≤ c.at }
        ensures { (w : List ℕ) → PartIs src.now self (InComponent Package) w c result }
    {
        let mut parts = self;
        let (boxes, next) = self.boxes.under(src, c);
        parts.boxes = boxes;
        PartRead { parts, next }
    }

    fn with_pins(self, src: &[u8], c: Cursor) -> PartRead
        requires placed { Placed src.now c }
        requires pins_le_at { self.pins ≤ c.at }
        ensures { (w : List ℕ) → PartIs src.now self (InComponent Pin) w c result }
    {
        let mut parts = self;
        let lines = lines_under::count_lines(src, c);
        parts.pins += lines.count;
        PartRead {
            parts,
            next: lines.next,
        }
    }

    // A keyword of the component, and the lines under it, from c on.
    fn with_part(self, src: &[u8], p: ComponentPart, argument: &[u8], c: Cursor) -> PartRead
        requires placed { Placed src.now c }
        requires pins_le_at { self.pins ≤ c.at }
        ensures { PartIs src.now self (InComponent p) argument.now c result }
    {
        match p {
            ComponentPart::Manufacturer => {
                let mut parts = self;
                parts.manufacturer = name_of(argument);
                PartRead { parts, next: c }
            }
            ComponentPart::Package => self.with_package(src, c),
            ComponentPart::Pin => self.with_pins(src, c),
        }
    }

    // A keyword of another section changes nothing.
    fn with_key(self, src: &[u8], k: Keyword, argument: &[u8], c: Cursor) -> PartRead
        requires placed { Placed src.now c }
        requires pins_le_at { self.pins ≤ c.at }
        ensures { PartIs src.now self k argument.now c result }
    {
        match k {
            Keyword::InComponent(p) => self.with_part(src, p, argument, c),
            _ => PartRead {
                parts: self,
                next: c,
            },
        }
    }
}

// The keywords from a place on, up to the end of the section.
fn parts_from(src: &[u8], c: Cursor) -> Parts
    requires { Placed src.now c }
    ensures { result ≡ parts_in no_parts (front is_within (rest src.now c)) }
{
    let mut parts = Parts::none();
    let mut d = c;
    while let Some(key) = lines_under::next_key(src, d) {
        if lines_under::ends(key.keyword) {
            return parts;
        }
        let read = parts.with_key(src, key.keyword, &src[key.start..key.end], key.next);
        parts = read.parts;
        d = read.next;
    }
    parts
}

pub fn component_of(src: &[u8], c: Cursor, name: &[u8], section: usize, start: usize) -> Component
    requires { Placed src.now c }
    ensures { result ≡ component_in section (record { start = start; count = length (pins_in (front is_within (rest src.now c))) }) name.now (front is_within (rest src.now c)) }
{
    let (sites, next) = Sites::under(src, c);
    let parts = parts_from(src, next);
    Component {
        section,
        name: name_of(name),
        si: sites.si,
        timing: sites.timing,
        manufacturer: parts.manufacturer,
        resistance: parts.boxes.resistance,
        inductance: parts.boxes.inductance,
        capacitance: parts.boxes.capacitance,
        pins: Span {
            start,
            count: parts.pins,
        },
    }
}
