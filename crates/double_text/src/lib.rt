// The cells of a record as doubles, a line each: one record's lines at a time.
#![tactic(auto, using(text_buffer::proofs::Laws::put_append, crate::proofs::Laws::lines_append), unfolding(records::specs::Cells::component_cells, records::specs::Cells::pin_cells, records::specs::Cells::split_cells, records::specs::Cells::level_cells, records::specs::Cells::model_cells, records::specs::Cells::row_cells, records::specs::Cells::slopes_cells, records::specs::Cells::ramp_cells, records::specs::Cells::fixture_cells, records::specs::Cells::device_cells, records::specs::Cells::waveform_cells, crate::specs::Lines::cell_line, crate::specs::Lines::cell_lines))]

pub mod cells; // cells.rt: a cell's line, and those of three
pub mod components; // components.rt: components and their pins
pub mod models; // models.rt: models, with their rows, ramps and waveforms

pub use cells::double_line;
pub use components::{component_lines, pin_lines};
pub use models::{model_lines, ramp_lines, row_lines, waveform_lines};
