//! The script that a number makes, one line at a time.
#![tactic(auto)]

mod draws;
mod lines;
mod script;

pub use lines::LINE_ROOM;
pub use script::MadeScript;
