// What stands on a line: names and their forms, the word or number behind a name, and names and words looked up in lists.
#![tactic(auto)]

pub mod lines; // lines.rt: a line's words, its name, and the word or number behind it
pub mod forms; // forms.rt: the forms of names
pub mod lookups; // lookups.rt: a name or a word looked up in document 01's lists
pub mod fields; // fields.rt: a field of a list after a line of it

pub use forms::{
    argument_fault, bracketed, file_name, is_no_model, model_name, name_fault, needs_no_model,
    pin_model, pin_name, sized, sized_fault, surplus_fault, word_fault,
};
pub use lines::{equals_at, first_word, name_of, named_in, number_line};
pub use lookups::{
    component_line, enable_of, fixture_line, location_of, model_line, package_line, polarity_of,
    ramp_line, type_of, word_line_fault,
};

// The form of a keyword's argument of one word.
#[derive(Clone, Copy)]
pub enum Form {
    Version,
    FileName,
    ModelName,
}
