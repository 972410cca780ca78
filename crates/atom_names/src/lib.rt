//! The names of atoms, each with its number.
#![tactic(auto)]

mod names;
mod open_fault;
mod row;
mod spread;
mod table;

pub use names::{AtomNames, MOST_NAMES};
pub use open_fault::OpenFault;
pub use row::LONGEST_NAME;
