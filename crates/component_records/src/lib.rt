// The records of pins, selector rows, selectors, components and the header, made from a file's bytes.
#![tactic(auto)]

pub mod held; // held.rt: a pin's model as it lies in its record
pub mod rows; // rows.rt: a pin row and a selector row
pub mod lists; // lists.rt: a component's lists of named lines: locations and package
pub mod sections; // sections.rt: selectors and components
pub mod head; // head.rt: the header

pub use head::header_of;
pub use rows::{choice_of, pin_of};
pub use sections::{component_of, selector_of};
