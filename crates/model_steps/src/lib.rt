// The steps of [Model]: its first lines, its keywords, the rows and lines of its lists, and what is checked where they close.
#![tactic(auto)]

pub mod state; // state.rt: a model's state, new and with one thing changed
pub mod rows; // rows.rt: the rows of a table
pub mod body; // body.rt: a line that is no keyword line
pub mod parts; // parts.rt: the keywords of a model, and the closes

pub use body::model_line;
pub use parts::{model_done, model_part, model_shut};
pub use rows::{head_after, one_more, rising, row_step, table_fault};
pub use state::{new_model, with_list};
