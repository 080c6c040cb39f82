// What a line adds to a file, noted in the store and counted, as long as there is room.
#![tactic(auto)]

use cut_lines::Cursor;
use records::{Counts, LineFault};

pub mod places; // places.rt: where a line's words and its argument lie in the file
pub mod room; // room.rt: how much of each table is used, and how much may be
pub mod events; // events.rt: what a line adds is noted

// A text in the file: its line, where it lies, and the cursor behind it.
#[derive(Clone, Copy)]
pub struct Spot {
    pub line: u64,
    pub start: usize,
    pub end: usize,
    pub next: Cursor,
}

// How many names are noted, and how much of each table is used.
#[derive(Clone, Copy)]
pub struct Tally {
    pub names: usize,
    pub counts: Counts,
}

// What a line adds is noted, or there is no room for it: the line's fault, and what is noted and counted all the same.
pub type Told = Result<Tally, (LineFault, Tally)>;
