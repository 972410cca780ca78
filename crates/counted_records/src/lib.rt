//! What the records of reached objects have to do with what occurs in the roots' trees.
#![tactic(auto)]

mod laws;

pub use laws::{named_records_are_demanded, namings_are_occurrences, reached_records_occur};
