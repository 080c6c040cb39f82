// The dump's lines of the file, its components, pins and selectors: one record's lines at a time.
#![tactic(auto, using(text_buffer::proofs::Laws::put_append), unfolding(crate::specs::Components::accepted_text, crate::specs::Components::header_lines, crate::specs::Components::place_lines, crate::specs::Components::package_dump, crate::specs::Components::component_dump, crate::specs::Components::pin_line, crate::specs::Components::selector_lines, crate::specs::Components::description_text, crate::specs::Components::choice_line, crate::specs::Labelled::triple_text, crate::specs::Labelled::cell_line, crate::specs::Labelled::triple_line, crate::specs::Labelled::count_line, crate::specs::Labelled::name_line, crate::specs::Labelled::words_line, crate::specs::Labelled::section_line, crate::specs::Labelled::range_line))]

pub mod labelled; // labelled.rt: a label and what stands behind it
pub mod components; // components.rt: the file's own lines, components, pins, selectors

pub use components::{
    accepted_line, choice_line, component_lines, end_line, header_lines, pin_line, selector_lines,
};
