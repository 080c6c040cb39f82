// What users ask of filled tables in words: a pin or a model by its name, the model chosen for a pin, a pin's package values. Any words may be lent,
// and a table ends with its last whole record: lend as many words as the records in use have.
#![tactic(auto)]

use records::Triple;

pub mod names; // names.rt: whether names are the same
pub mod searches; // searches.rt: the place of a record that is sought
pub mod choices; // choices.rt: the model chosen for a pin
pub mod values; // values.rt: a pin's values, or its package's

// A pin's resistance, inductance and capacitance, each typ, min and max.
#[derive(Clone, Copy)]
pub struct PinValues {
    pub resistance: Triple,
    pub inductance: Triple,
    pub capacitance: Triple,
}
