// What a person reads of an accepted file, as bytes in a lent buffer: a summary in columns.
#![tactic(auto, using(text_buffer::proofs::Laws::put_append), unfolding(crate::specs::Capacitances::part_text, crate::specs::Capacitances::capacitance_heading, crate::specs::Capacitances::capacitance_row, crate::specs::Summaries::header_text, crate::specs::Summaries::counts_text, crate::specs::Summaries::gap_text, crate::specs::Summaries::component_text, crate::specs::Summaries::heading_text, crate::specs::Summaries::pin_columns, crate::specs::Summaries::selector_text, crate::specs::Summaries::pin_text, crate::specs::Summaries::bare_text))]

pub mod capacitances; // capacitances.rt: the die capacitance of models in columns
pub mod summaries; // summaries.rt: the file, and its pins in columns

pub use capacitances::{put_capacitance_heading, put_capacitances};
pub use summaries::{
    Widths, put_bare_pin, put_component, put_counts, put_header, put_heading, put_pin,
};
