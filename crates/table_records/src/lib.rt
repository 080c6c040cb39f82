// The record at a place of a lent table of words: what was written comes back. At a place that the table does not have lies the record of no words:
// its names are empty, its cells missing, its numbers 0.
#![tactic(auto)]

pub mod values; // values.rt: values in the words of a record
pub mod parts; // parts.rt: parts of records in their words
pub mod tables; // tables.rt: the record at a place of each table
