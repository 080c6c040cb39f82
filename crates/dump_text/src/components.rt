// The dump's first and last lines, components with their pins, and selectors with their choices.
ghost use Rattle.text_buffer.specs.Pages.{Writes};
ghost use Rattle.dump_text.specs.Components.{header_lines, accepted_text, end_text, location_line, place_lines, package_dump, component_dump, pin_line, selector_lines, description_text, choice_line};

use crate::labelled::{count_line, name_line, section_line, triple_line, words_line};
use records::{Choice, Component, Counts, Header, Location, Pin, Selector, Words};
use text_buffer::Page;

// `OK` with seven counts.
pub fn accepted_line(page: &mut Page, counts: Counts)
    ensures { Writes page.old page.new (accepted_text counts) }
{
    page.put_bytes(b"OK");
    page.put_count(counts.components);
    page.put_count(counts.pins);
    page.put_count(counts.selectors);
    page.put_count(counts.choices);
    page.put_count(counts.models);
    page.put_count(counts.waveforms);
    page.put_count(counts.rows);
    page.put_byte(b'\n');
}

pub fn header_lines(page: &mut Page, header: Header)
    ensures { Writes page.old page.new (header_lines header) }
{
    words_line(page, b"FILE_NAME", header.name);
    words_line(page, b"FILE_REV", header.revision);
}

pub fn end_line(page: &mut Page)
    ensures { Writes page.old page.new end_text }
{
    page.put_bytes(b"END\n");
}

fn location_line(page: &mut Page, label: &[u8], place: Location)
    ensures { Writes page.old page.new (location_line label.now place) }
{
    page.put_bytes(label);
    match place {
        Location::AtPin => page.put_bytes(b" Pin\n"),
        Location::AtDie => page.put_bytes(b" Die\n"),
    }
}

fn place_lines(page: &mut Page, c: Component)
    ensures { Writes page.old page.new (place_lines c) }
{
    location_line(page, b"SI_LOCATION", c.si);
    location_line(page, b"TIMING_LOCATION", c.timing);
}

fn package_lines(page: &mut Page, c: Component)
    ensures { Writes page.old page.new (package_dump c) }
{
    triple_line(page, b"R_PKG", c.resistance);
    triple_line(page, b"L_PKG", c.inductance);
    triple_line(page, b"C_PKG", c.capacitance);
}

// The pins follow, a line each.
#[tactic(auto, using(text_buffer::proofs::Laws::put_append), unfolding(crate::specs::Components::component_dump))]
pub fn component_lines(page: &mut Page, index: usize, c: Component)
    ensures { Writes page.old page.new (component_dump index c) }
{
    section_line(page, b"COMPONENT", index, c.name);
    place_lines(page, c);
    name_line(page, b"MANUFACTURER", c.manufacturer);
    package_lines(page, c);
    count_line(page, b"PINS", c.pins.count);
}

pub fn pin_line(page: &mut Page, pin: Pin)
    ensures { Writes page.old page.new (pin_line pin) }
{
    page.put_bytes(b"PIN");
    page.put_names(pin.name, pin.signal, pin.model);
    page.put_next_cell(pin.resistance);
    page.put_next_cell(pin.inductance);
    page.put_next_cell(pin.capacitance);
    page.put_byte(b'\n');
}

// The choices follow, a line each.
pub fn selector_lines(page: &mut Page, index: usize, s: Selector)
    ensures { Writes page.old page.new (selector_lines index s) }
{
    section_line(page, b"SELECTOR", index, s.name);
    count_line(page, b"CHOICES", s.choices.count);
}

// No line ends with a blank: an empty description has no space before it.
fn put_description(page: &mut Page, words: Words)
    ensures { Writes page.old page.new (description_text words) }
{
    if words.len == 0 {
        return;
    }
    page.put_byte(b' ');
    page.put_words(words);
}

pub fn choice_line(page: &mut Page, choice: Choice)
    ensures { Writes page.old page.new (choice_line choice) }
{
    page.put_bytes(b"CHOICE ");
    page.put_name(choice.model);
    put_description(page, choice.description);
    page.put_byte(b'\n');
}
