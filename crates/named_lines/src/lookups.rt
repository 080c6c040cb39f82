// A line's name, and the word behind a name, looked up in document 01's lists.
ghost use Rattle.std.specs.Prelude.{◌≡◌, ◌≤◌, ◌<◌, length, drop};
ghost use Rattle.name_table.specs.Places.{meaning_at};
ghost use Rattle.line_rules.specs.Fields.{line_at, alone, word_line};
ghost use Rattle.records.specs.Flaws.{flaw_in, told, told_in, checked};
ghost use Rattle.line_rules.specs.Tables.{component_lines, package_lines, model_lines, ramp_lines, fixtures, locations, model_types, polarities, enables};
ghost use Rattle.named_lines.specs.Views.{place_in, place_line};
ghost use Rattle.laws.specs.Said.{or_else};

use crate::lines::{equals_at, name_of, named_in};
use name_table::NameList;
use records::{Enable, LineFault, Location, ModelType, Polarity};

// Five times named_in: each clause says its list as document 01's text, which callers cite, and a list handed in would not show it.

// A component's first lines.
pub fn component_line(w: &[u8]) -> Option<usize>
    ensures { result ≡ line_at component_lines w.now }
{
    named_in(w, NameList::ComponentLines)
}

// A package's lines.
pub fn package_line(w: &[u8]) -> Option<usize>
    ensures { result ≡ line_at package_lines w.now }
{
    named_in(w, NameList::PackageLines)
}

// A model's first lines.
pub fn model_line(w: &[u8]) -> Option<usize>
    ensures { result ≡ line_at model_lines w.now }
{
    named_in(w, NameList::ModelLines)
}

// A ramp's lines.
pub fn ramp_line(w: &[u8]) -> Option<usize>
    ensures { result ≡ line_at ramp_lines w.now }
{
    named_in(w, NameList::RampLines)
}

// A waveform's lines before its rows.
pub fn fixture_line(w: &[u8]) -> Option<usize>
    ensures { result ≡ line_at fixtures w.now }
{
    named_in(w, NameList::Fixtures)
}

// ---- the word behind a line's name: four lists and their meanings. One function over them would be handed the table of its clause, which no code has.

// One word from a place on, by its place in a list.
fn sole_listed(w: &[u8], at: usize, list: NameList) -> Result<usize, LineFault>
    requires { at ≤ length w.now }
    ensures { result ≡ told_in w.now (alone (place_in list) (drop at w.now)) }
{
    let word = words::word_at(w, at);
    let start = word.start;
    let end = word.end;
    let Some(k) = name_table::place(&w[start..end], list) else {
        return Err(records::at_fault(10, start));
    };
    let next = words::skip_blanks(w, end);
    if next < w.len() {
        return Err(records::at_fault(10, next));
    }
    Ok(k)
}

// The one word of a line by its place in a list.
fn listed_word(w: &[u8], list: NameList) -> Result<usize, LineFault>
    ensures { result ≡ told_in w.now (place_line list w.now) }
{
    let name = name_of(w);
    let end = name.end;
    if equals_at(w, end) {
        return Err(records::at_fault(10, end));
    }
    sole_listed(w, end, list)
}

// What a line of a name and a word of a list tells.
pub fn word_line_fault(w: &[u8], list: NameList) -> Result<(), LineFault>
    ensures { result ≡ checked (told w.now (flaw_in (place_line list w.now))) }
{
    listed_word(w, list)?;
    Ok(())
}

// The locations, in the order of their words.
static LOCATIONS: [Location; 2] = [Location::AtPin, Location::AtDie];

fn location_at(k: usize) -> Location
    requires { k < 2 }
    ensures { Some result ≡ meaning_at locations k }
{
    LOCATIONS[k]
}

// The word of Si_location and Timing_location.
pub fn location_of(w: &[u8]) -> Result<Location, LineFault>
    ensures { result ≡ told_in w.now (word_line locations w.now) }
{
    match listed_word(w, NameList::Locations) {
        Ok(k) => Ok(location_at(k)),
        Err(fault) => Err(fault),
    }
}

// The types of a model, in the order of their words.
static TYPES: [ModelType; 15] = [
    ModelType::Input,
    ModelType::Output,
    ModelType::InputOutput,
    ModelType::ThreeState,
    ModelType::OpenDrain,
    ModelType::InputOutputOpenDrain,
    ModelType::OpenSink,
    ModelType::InputOutputOpenSink,
    ModelType::OpenSource,
    ModelType::InputOutputOpenSource,
    ModelType::InputEcl,
    ModelType::OutputEcl,
    ModelType::InputOutputEcl,
    ModelType::ThreeStateEcl,
    ModelType::Terminator,
];

fn type_at(k: usize) -> ModelType
    requires { k < 15 }
    ensures { Some result ≡ meaning_at model_types k }
{
    TYPES[k]
}

// The word of Model_type.
pub fn type_of(w: &[u8]) -> Result<ModelType, LineFault>
    ensures { result ≡ told_in w.now (word_line model_types w.now) }
{
    match listed_word(w, NameList::ModelTypes) {
        Ok(k) => Ok(type_at(k)),
        Err(fault) => Err(fault),
    }
}

// The polarities, in the order of their words.
static POLARITIES: [Option<Polarity>; 2] = [
    Some(Polarity::Inverting),
    Some(Polarity::NonInverting),
];

fn polarity_at(k: usize) -> Option<Polarity>
    requires { k < 2 }
    ensures { Some result ≡ meaning_at polarities k }
{
    POLARITIES[k]
}

// The word of Polarity.
pub fn polarity_of(w: &[u8]) -> Option<Polarity>
    ensures { result ≡ or_else None (word_line polarities w.now) }
{
    match listed_word(w, NameList::Polarities) {
        Ok(k) => polarity_at(k),
        Err(_) => None,
    }
}

// What enables a model, in the order of the words.
static ENABLES: [Option<Enable>; 2] = [Some(Enable::ActiveHigh), Some(Enable::ActiveLow)];

fn enable_at(k: usize) -> Option<Enable>
    requires { k < 2 }
    ensures { Some result ≡ meaning_at enables k }
{
    ENABLES[k]
}

// The word of Enable.
pub fn enable_of(w: &[u8]) -> Option<Enable>
    ensures { result ≡ or_else None (word_line enables w.now) }
{
    match listed_word(w, NameList::Enables) {
        Ok(k) => enable_at(k),
        Err(_) => None,
    }
}
