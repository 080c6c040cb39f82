// What the faults mean, told to people: a sentence for each number of document 01, and a hint what to look at.
#![tactic(auto)]

mod texts; // texts.rt: a fault's text out of a table
pub mod sentences; // sentences.rt: what a fault means
pub mod hints; // hints.rt: what to look at

pub use hints::put_hint;
pub use sentences::put_sentence;
