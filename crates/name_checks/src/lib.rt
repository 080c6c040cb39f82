// The last questions about the noted names: names used twice (14), names not found (15), what nobody lists (16).
#![tactic(auto)]

pub mod places; // places.rt: a note's words
pub mod keys; // keys.rt: a name's key
pub mod seen; // seen.rt: the keys that were seen
pub mod clashes; // clashes.rt: names used twice
pub mod listing; // listing.rt: models and selectors by their keys
pub mod marking; // marking.rt: names not found, and what nobody lists

pub use clashes::first_clash;
pub use marking::last_fault;

// A name and an earlier one: equal, differing, or no longer to be compared.
#[derive(Clone, Copy)]
pub enum Meeting {
    Equal,
    Differing,
    Beyond,
}
