//! The text of `counts`: every record with its count, from the tables of records.
#![tactic(auto)]

mod listing;
mod next;

pub use listing::put_counts;
