//! Rows in rising order of their numbers, found by halving.
#![tactic(auto)]

mod boxed;
mod table;

pub use boxed::Boxed;
pub use table::{Numbered, find, first_above};
