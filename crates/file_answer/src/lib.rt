// The answer to a file, and what is noted of it for those who fill the tables.
#![tactic(auto)]

use cut_lines::Cursor;
use noted_events::Tally;
use records::Fault;
use rules::{RowsSeen, Stage};

pub mod rows; // rows.rt: the rows of an open table, in a loop of their own
pub mod pins; // pins.rt: the rows of [Pin], in a loop of their own
pub mod reading; // reading.rt: line after line, up to the first fault
pub mod settling; // settling.rt: bytes, lines, names, last checks, one after the other

pub use settling::{check, loaded, outlined};

// Behind rows of the open table: where the reading stands, and how many rows the file has up to there.
#[derive(Clone, Copy)]
pub struct Passed {
    pub cursor: Cursor,
    pub rows: RowsSeen,
    pub count: usize,
}

// Behind rows of [Pin]: where the reading stands, and what is noted and counted up to there.
#[derive(Clone, Copy)]
pub struct PinsPassed {
    pub cursor: Cursor,
    pub tally: Tally,
}

// Where the reading stands.
#[derive(Clone, Copy)]
pub struct Standing {
    pub stage: Stage,
    pub cursor: Cursor,
    pub tally: Tally,
}

#[derive(Clone, Copy)]
pub struct Scanned {
    pub ending: Result<(), Fault>,
    pub tally: Tally,
}
