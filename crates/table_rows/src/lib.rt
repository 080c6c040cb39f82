// Tables: their rows written into the row store, and the record of a waveform with its rows.
#![tactic(auto)]

use cut_lines::Cursor;
use records::Waveform;

pub mod rows; // rows.rt: the rows of one table
pub mod waveforms; // waveforms.rt: the record of a waveform, and with it its rows

pub use rows::fill_table;
pub use waveforms::{bare_waveform, fill_waveform};

// How many words a table's rows took, and where the next keyword line stands.
#[derive(Clone, Copy)]
pub struct Filled {
    pub words: usize,
    pub next: Cursor,
}

// A waveform, how many words its rows took, and where the next keyword line stands.
#[derive(Clone, Copy)]
pub struct WaveformFilled {
    pub waveform: Waveform,
    pub filled: Filled,
}
