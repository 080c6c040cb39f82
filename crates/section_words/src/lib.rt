// A section of an accepted file as words: one pass over a model's lines writes its record, its waveforms' records and its rows.
#![tactic(auto)]

use cut_lines::Cursor;

pub mod puts; // puts.rt: words, and a model's record, at a place of a table
pub mod parts; // parts.rt: what a keyword says of a model, written into its record
pub mod keys; // keys.rt: what stands under one keyword of a model
pub mod models; // models.rt: a whole model

pub use models::{fill_model, list_model};
pub use puts::put;

// How many words of the tables of waveforms and of rows are taken.
#[derive(Clone, Copy)]
pub struct Used {
    pub waveforms: usize,
    pub rows: usize,
}

// The words that stand under a keyword, and where the next keyword line stands.
#[derive(Clone, Copy)]
pub struct KeyFilled {
    pub next: Cursor,
    pub used: Used,
}
