// The record of a model: its first lines, then its keywords, whose rows are written into the row store, up to each waveform.
#![tactic(auto)]

use cut_lines::Cursor;
use decimal::Cell;
use records::{Enable, ModelType, Polarity, RampTable, Range, Split, Table, Triple, Waveform};

pub mod firsts; // firsts.rt: a model's first lines
pub mod ramps; // ramps.rt: the lines of [Ramp]
pub mod bodies; // bodies.rt: the keywords of a model, one after another
pub mod record; // record.rt: the whole record

// What the first lines say with a word,
#[derive(Clone, Copy)]
pub struct Marks {
    pub kind: ModelType,
    pub polarity: Option<Polarity>,
    pub enable: Option<Enable>,
}

// and with a number.
#[derive(Clone, Copy)]
pub struct Levels {
    pub vinl: Cell,
    pub vinh: Cell,
    pub vmeas: Cell,
    pub cref: Cell,
    pub rref: Cell,
    pub vref: Cell,
}

// What the first lines say.
#[derive(Clone, Copy)]
pub struct FirstLines {
    pub marks: Marks,
    pub comp: Triple,
    pub split: Split,
    pub levels: Levels,
}

// The first lines, and where the next keyword line stands.
#[derive(Clone, Copy)]
pub struct FirstRead {
    pub lines: FirstLines,
    pub next: Cursor,
}

// The lines of [Ramp], and where the next keyword line stands.
#[derive(Clone, Copy)]
pub struct RampLinesRead {
    pub ramp: RampTable,
    pub next: Cursor,
}

// What the keywords say. row: the place of the next table's first row in the row store.
#[derive(Clone, Copy)]
pub struct Body {
    pub voltage: Triple,
    pub temperature: Range,
    pub pulldown: Table,
    pub pullup: Table,
    pub ground: Table,
    pub power: Table,
    pub ramp: RampTable,
    pub waveforms: usize,
    pub row: usize,
}

// What the keywords say with one more, or with all up to a waveform: how many words their rows took, where to read on, and the record of the last if it
// is a waveform.
#[derive(Clone, Copy)]
pub struct Taken {
    pub body: Body,
    pub next: Cursor,
    pub words: usize,
    pub waveform: Option<Waveform>,
}
