// What the programs print, as bytes on a page over a lent buffer: bytes, numbers, names and cells. What has no room is left out.
#![tactic(auto, using(crate::proofs::Laws::put_append))]

pub mod hexadecimal; // hexadecimal.rt: numbers in hexadecimal digits
pub mod listing; // listing.rt: the listing's lines
pub mod numbers; // numbers.rt: numbers, decimals and cells
pub mod page; // page.rt: the page: bytes, names and texts
pub mod tables; // tables.rt: texts that stand in one table of bytes

pub use listing::{accepted_line, listed_line, refused_line};
pub use page::Page;
pub use tables::part_at;
