// The types that everybody needs: the records of the tables, the counts, what is named in a file, and a fault with its line and column; document 01's
// bounds; texts as they lie in a record; and model types by number.
#![tactic(auto)]

ghost use Rattle.std.specs.Prelude.{◌≡◌, ◌^◌, ◌<◌};
ghost use Rattle.records.specs.Flaws.{at_place, bare, at_line, checked_at};
ghost use Rattle.records.specs.Types.{type_number};

use decimal::{Cell, Decimal};

pub mod texts; // texts.rt: texts as they lie in a record, and what stands where nothing is given

pub use texts::{name_of, no_cells, no_name, no_words, text_of, words_of};

// ---- how many of each a file has at most, if as many are lent; of waveforms, in all models

pub const MOST_COMPONENTS: usize = 8;

pub const MOST_PINS: usize = 512;

pub const MOST_SELECTORS: usize = 32;

pub const MOST_CHOICES: usize = 256;

pub const MOST_MODELS: usize = 64;

pub const MOST_WAVEFORMS: usize = 1024;

// Loading asks for as many rows: no file has more.
pub const MOST_ROWS: usize = 8192;

// ---- faults and answers

// A fault of document 01: its number, and the line and the column told.
#[derive(Clone, Copy)]
pub struct Fault {
    pub number: u8,
    pub line: u64,
    pub column: u64,
}

// What a line by itself tells of its fault: document 01's number, by which definitions, texts and C know it, and the column. As a part of an event or
// of a text of the file, 0 and 0 where it has none.
#[derive(Clone, Copy)]
pub struct LineFault {
    pub number: u8,
    pub column: u64,
}

impl LineFault {
    // The fault, told at line k.
    pub fn at_line(self, k: u64) -> Fault
        ensures { result ≡ at_line k self }
    {
        Fault {
            number: self.number,
            line: k,
            column: self.column,
        }
    }
}

// What line k says, or its fault, told there.
pub fn at_line<T>(answer: Result<T, LineFault>, k: u64) -> Result<T, Fault>
    ensures { result ≡ checked_at k answer }
{
    answer.map_err(|f| f.at_line(k))
}

// Fault 10, 11 or 12 of a line, told at the character at a place.
pub fn at_fault(number: u8, place: usize) -> LineFault
    requires { place < 2 ^ 63 }
    ensures { result ≡ at_place number place }
{
    LineFault {
        number: number,
        column: place as u64 + 1,
    }
}

// A fault that tells no column; with number 0, none.
pub fn bare_fault(number: u8) -> LineFault
    ensures { result ≡ bare number }
{
    LineFault {
        number: number,
        column: 0,
    }
}

// How much of each table a file uses.
#[derive(Clone, Copy)]
pub struct Counts {
    pub components: usize,
    pub pins: usize,
    pub selectors: usize,
    pub choices: usize,
    pub models: usize,
    pub waveforms: usize,
    pub rows: usize,
}

// The lengths of tables other than the rows.
#[derive(Clone, Copy)]
pub struct Lengths {
    pub components: usize,
    pub pins: usize,
    pub selectors: usize,
    pub choices: usize,
    pub models: usize,
    pub waveforms: usize,
}

// What is lent to be filled: tables of these lengths, and so many rows, whole ones of four words.
#[derive(Clone, Copy)]
pub struct Lending {
    pub tables: Lengths,
    pub rows: usize,
}

#[derive(Clone, Copy)]
pub struct Header {
    pub name: Words,
    pub revision: Words,
}

// On refusal all counts are 0 and the texts are empty.
#[derive(Clone, Copy)]
pub struct Answer {
    pub verdict: Result<(), Fault>,
    pub counts: Counts,
    pub header: Header,
}

// ---- texts and numbers in records

// A text of at most N bytes: its bytes, then zeros.
#[derive(Clone, Copy)]
pub struct Text<const N: usize> {
    pub bytes: [u8; N],
    pub len: u8,
}

// A name of 1 to 40 bytes.
pub type Name = Text<40>;

// The file's name, its revision or a description: up to 120 bytes.
pub type Words = Text<120>;

// Three cells: typ, min, max.
#[derive(Clone, Copy)]
pub struct Triple {
    pub typ: Cell,
    pub min: Cell,
    pub max: Cell,
}

// A row of a table: a number and three cells.
#[derive(Clone, Copy)]
pub struct Row {
    pub number: Decimal,
    pub cells: Triple,
}

// A cell of a ramp: two numbers with `/` between, each exact, or missing: as a Cell, no Option.
#[derive(Clone, Copy)]
pub enum RampCell {
    Ratio { dividend: Decimal, divisor: Decimal },
    Absent,
}

#[derive(Clone, Copy)]
pub struct RampTriple {
    pub typ: RampCell,
    pub min: RampCell,
    pub max: RampCell,
}

// The records of a section that lie in another table: the first one's place, and how many.
#[derive(Clone, Copy)]
pub struct Span {
    pub start: usize,
    pub count: usize,
}

// ---- words that have one of a few meanings

#[derive(Clone, Copy)]
pub enum Location {
    AtPin,
    AtDie,
}

#[derive(Clone, Copy)]
pub enum ModelType {
    Input,
    Output,
    InputOutput,
    ThreeState,
    OpenDrain,
    InputOutputOpenDrain,
    OpenSink,
    InputOutputOpenSink,
    OpenSource,
    InputOutputOpenSource,
    InputEcl,
    OutputEcl,
    InputOutputEcl,
    ThreeStateEcl,
    Terminator,
}

// A model type's place in document 01's list, from 0.
pub fn type_number(t: ModelType) -> u64
    ensures { result ≡ type_number t }
{
    t as u64
}

// Polarity and Enable may be left out.
#[derive(Clone, Copy)]
pub enum Polarity {
    Inverting,
    NonInverting,
}

#[derive(Clone, Copy)]
pub enum Enable {
    ActiveHigh,
    ActiveLow,
}

#[derive(Clone, Copy)]
pub enum Edge {
    Rising,
    Falling,
}

// ---- what is named in a file

// What is named in a file.
#[derive(Clone, Copy)]
pub enum Kind {
    OfComponent,
    OfPin,
    OfSelector,
    OfChoice,
    OfModel,
}

// ---- the records of the lent tables

// section is the place among all sections of the file, from 0.
#[derive(Clone, Copy)]
pub struct Component {
    pub section: usize,
    pub name: Name,
    pub si: Location,
    pub timing: Location,
    pub manufacturer: Name,
    pub resistance: Triple,
    pub inductance: Triple,
    pub capacitance: Triple,
    pub pins: Span,
}

// model in capitals where it is a reserved word.
#[derive(Clone, Copy)]
pub struct Pin {
    pub name: Name,
    pub signal: Name,
    pub model: Name,
    pub resistance: Cell,
    pub inductance: Cell,
    pub capacitance: Cell,
}

#[derive(Clone, Copy)]
pub struct Selector {
    pub section: usize,
    pub name: Name,
    pub choices: Span,
}

#[derive(Clone, Copy)]
pub struct Choice {
    pub model: Name,
    pub description: Words,
}

// A table's rows in the row store, if the table is given.
#[derive(Clone, Copy)]
pub struct Table {
    pub given: bool,
    pub rows: Span,
}

// Three cells, if they are given.
#[derive(Clone, Copy)]
pub struct Range {
    pub given: bool,
    pub cells: Triple,
}

// The die capacitance by structure: C_comp_pullup, C_comp_pulldown, C_comp_power_clamp, C_comp_gnd_clamp.
#[derive(Clone, Copy)]
pub struct Split {
    pub pullup: Range,
    pub pulldown: Range,
    pub power: Range,
    pub ground: Range,
}

#[derive(Clone, Copy)]
pub struct RampTable {
    pub given: bool,
    pub rise: RampTriple,
    pub fall: RampTriple,
    pub load: Cell,
}

#[derive(Clone, Copy)]
pub struct Model {
    pub section: usize,
    pub name: Name,
    pub kind: ModelType,
    pub polarity: Option<Polarity>,
    pub enable: Option<Enable>,
    pub comp: Triple,
    pub split: Split,
    pub vinl: Cell,
    pub vinh: Cell,
    pub vmeas: Cell,
    pub cref: Cell,
    pub rref: Cell,
    pub vref: Cell,
    pub voltage: Triple,
    pub temperature: Range,
    pub pulldown: Table,
    pub pullup: Table,
    pub ground: Table,
    pub power: Table,
    pub ramp: RampTable,
    pub waveforms: Span,
}

#[derive(Clone, Copy)]
pub struct Waveform {
    pub edge: Edge,
    pub rfixture: Cell,
    pub vfixture: Cell,
    pub vmin: Cell,
    pub vmax: Cell,
    pub cfixture: Cell,
    pub lfixture: Cell,
    pub rdut: Cell,
    pub ldut: Cell,
    pub cdut: Cell,
    pub rows: Span,
}
