// The records of an accepted file, made from its notes: those of sections and rows one by one, and the models one after the other with their waveforms and rows.
#![tactic(auto)]

use cut_lines::Cursor;
use model_record::{Body, FirstLines, Taken};

pub mod places; // places.rt: what the words of a store name: words, parts of the file and cursors
pub mod tables; // tables.rt: the records of sections and of their rows
pub mod models; // models.rt: the models with their waveforms and rows

pub use models::{model_made, next_record, no_record, waveform_made};
pub use tables::{choice_at, component_at, pin_at, selector_at};

// How far the models are made: how many words their rows took; and of the model that was read last, what its first lines and its keywords so far say. It goes
// on behind a waveform.
#[derive(Clone, Copy)]
pub struct Progress {
    pub words: usize,
    pub lines: FirstLines,
    pub taken: Taken,
}

// What the lines of a model so far say, and where to read on.
#[derive(Clone, Copy)]
pub struct Opening {
    pub lines: FirstLines,
    pub body: Body,
    pub next: Cursor,
}
