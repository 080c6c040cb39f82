// The state of a reading, for document 01's rules in specs/: what was given of a section so far, the list or table that is open, and what a line adds.
#![tactic(auto)]

ghost use Rattle.std.specs.Prelude.{◌≡◌};
ghost use Rattle.rules.specs.Going.{stop, stop_at, given_once};

use decimal::{Cell, Decimal};
use given::Given;
use keywords::Section;
use records::{Fault, LineFault, ModelType};

pub mod types; // types.rt: what a model's type asks of it

// Vinl and Vinh of a model.
#[derive(Clone, Copy)]
pub struct Thresholds {
    pub vinl: Cell,
    pub vinh: Cell,
}

#[derive(Clone, Copy)]
pub struct HeaderState {
    pub line: u64,
    pub text: bool,
    pub parts: Given,
}

// The list that is open in a component, with the line of its keyword.
#[derive(Clone, Copy)]
pub enum ComponentList {
    ComponentFirst,
    ComponentShut,
    PackageLines { line: u64, given: Given },
    PinRows { line: u64, long: bool, any: bool },
}

#[derive(Clone, Copy)]
pub struct ComponentState {
    pub line: u64,
    pub first: Given,
    pub parts: Given,
    pub list: ComponentList,
}

#[derive(Clone, Copy)]
pub struct SelectorState {
    pub line: u64,
    pub any: bool,
}

// Rows of the open table: how many, the last one's number, and whether the first and the last typ are numbers.
#[derive(Clone, Copy)]
pub struct RowsSeen {
    pub count: u64,
    pub last: Decimal,
    pub head: bool,
    pub tail: bool,
}

// The list or table that is open in a model, with the line of its keyword.
#[derive(Clone, Copy)]
pub enum ModelList {
    ModelFirst,
    ModelShut,
    CurrentRows {
        line: u64,
        rows: RowsSeen,
    },
    RampLines {
        line: u64,
        given: Given,
    },
    WaveformRows {
        line: u64,
        given: Given,
        rows: RowsSeen,
    },
}

// The type, Vinl and Vinh are kept for the checks at the close.
#[derive(Clone, Copy)]
pub struct ModelState {
    pub line: u64,
    pub first: Given,
    pub kind: ModelType,
    pub vinl: Cell,
    pub vinh: Cell,
    pub parts: Given,
    pub waveforms: u8,
    pub list: ModelList,
}

// Where a reading stands.
#[derive(Clone, Copy)]
pub enum Stage {
    BeforeVersion,
    InHeader(HeaderState),
    InComponent(ComponentState),
    InSelector(SelectorState),
    InModel(ModelState),
    AfterEnd,
}

// What a line adds to the file: nothing that is counted or named; a section; a pin row; a selector row; a waveform; a table row;
// the end, with what its own line tells: number 0 for none, as the definitions have it (`on_keyword` and `admit` in specs/).
#[derive(Clone, Copy)]
pub enum Event {
    Quiet,
    Opened(Section),
    PinRow,
    ChoiceRow,
    WaveformOpened,
    TableRow,
    Ended(LineFault),
}

// A line's step: the next stage and what the line adds, or the fault.
pub type Went = Result<(Stage, Event), Fault>;

// Fault n, told at line k.
pub fn stopped(n: u8, k: u64) -> Went
    ensures { result ≡ stop n k }
{
    Err(Fault {
        number: n,
        line: k,
        column: 0,
    })
}

// Line k's own fault, told there.
pub fn stopped_at(f: LineFault, k: u64) -> Went
    ensures { result ≡ stop_at f k }
{
    Err(Fault {
        number: f.number,
        line: k,
        column: f.column,
    })
}

// What is given with the thing at place n, which line k gives: fault 8 if it was given before, else the fault of its own check.
pub fn once(g: Given, n: usize, k: u64, own: Result<(), LineFault>) -> Result<Given, Fault>
    ensures { result ≡ given_once g n k own }
{
    if g.is_given(n) {
        return Err(records::bare_fault(8).at_line(k));
    }
    records::at_line(own, k)?;
    Ok(g.also(n))
}
