// What a person reads of a refused file, as bytes in a lent buffer: where and which fault, the line with a mark at the column, and what to look at.
#![tactic(auto, using(text_buffer::proofs::Laws::put_append), unfolding(crate::specs::Hints::quoted, crate::specs::Hints::wrong_text, crate::specs::Hints::surplus_text, crate::specs::Hints::slope_text, crate::specs::Hints::number_text, crate::specs::Hints::range_hint, crate::specs::Refusals::place_text, crate::specs::Refusals::fault_text, crate::specs::Refusals::refusal_text, crate::specs::Shown::visible, crate::specs::Shown::blank_for, crate::specs::Shown::visible_text, crate::specs::Shown::marked_text))]

pub mod places; // places.rt: where a line lies, and what cutting leaves of it
mod shown; // shown.rt: the line, safe for a screen, and the mark under it
mod hints; // hints.rt: what to look at, with the word at fault
pub mod refusals; // refusals.rt: all of it

pub use refusals::put_refusal;
