// Blank records: no names, no cells, no numbers. Tables of them are lent where no file was read yet.
#![tactic(auto)]

ghost use Rattle.std.specs.Prelude.{◌≡◌};
ghost use Rattle.rules.specs.Reading.{no_ramp};
ghost use Rattle.blank_records.specs.Blank.{blank_component, blank_pin, blank_selector, blank_choice, blank_model, blank_waveform};

use decimal::Cell;
use records::{
    Choice, Component, Edge, Enable, Location, Model, ModelType, Pin, Polarity, RampCell,
    RampTable, RampTriple, Range, Selector, Span, Split, Table, Waveform,
};

fn no_ramp() -> RampTable
    ensures { result ≡ no_ramp }
{
    let slopes = RampTriple {
        typ: RampCell::Absent,
        min: RampCell::Absent,
        max: RampCell::Absent,
    };
    RampTable {
        given: false,
        rise: slopes,
        fall: slopes,
        load: Cell::Missing,
    }
}

pub fn blank_component() -> Component
    ensures { result ≡ blank_component }
{
    let name = records::no_name();
    let cells = records::no_cells();
    Component {
        section: 0,
        name: name,
        si: Location::AtPin,
        timing: Location::AtPin,
        manufacturer: name,
        resistance: cells,
        inductance: cells,
        capacitance: cells,
        pins: Span { start: 0, count: 0 },
    }
}

pub fn blank_pin() -> Pin
    ensures { result ≡ blank_pin }
{
    let name = records::no_name();
    Pin {
        name: name,
        signal: name,
        model: name,
        resistance: Cell::Missing,
        inductance: Cell::Missing,
        capacitance: Cell::Missing,
    }
}

pub fn blank_selector() -> Selector
    ensures { result ≡ blank_selector }
{
    Selector {
        section: 0,
        name: records::no_name(),
        choices: Span { start: 0, count: 0 },
    }
}

pub fn blank_choice() -> Choice
    ensures { result ≡ blank_choice }
{
    Choice {
        model: records::no_name(),
        description: records::no_words(),
    }
}

pub fn blank_model() -> Model
    ensures { result ≡ blank_model }
{
    let cells = records::no_cells();
    let absent = Range {
        given: false,
        cells: cells,
    };
    let table = Table {
        given: false,
        rows: Span { start: 0, count: 0 },
    };
    Model {
        section: 0,
        name: records::no_name(),
        kind: ModelType::Input,
        polarity: None,
        enable: None,
        comp: cells,
        split: Split {
            pullup: absent,
            pulldown: absent,
            power: absent,
            ground: absent,
        },
        vinl: Cell::Missing,
        vinh: Cell::Missing,
        vmeas: Cell::Missing,
        cref: Cell::Missing,
        rref: Cell::Missing,
        vref: Cell::Missing,
        voltage: cells,
        temperature: absent,
        pulldown: table,
        pullup: table,
        ground: table,
        power: table,
        ramp: no_ramp(),
        waveforms: Span { start: 0, count: 0 },
    }
}

pub fn blank_waveform() -> Waveform
    ensures { result ≡ blank_waveform }
{
    Waveform {
        edge: Edge::Rising,
        rfixture: Cell::Missing,
        vfixture: Cell::Missing,
        vmin: Cell::Missing,
        vmax: Cell::Missing,
        cfixture: Cell::Missing,
        lfixture: Cell::Missing,
        rdut: Cell::Missing,
        ldut: Cell::Missing,
        cdut: Cell::Missing,
        rows: Span { start: 0, count: 0 },
    }
}
