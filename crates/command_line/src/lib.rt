//! The options that the words of the command line ask for.
#![tactic(auto)]

mod options;
mod values;
mod words;

pub use options::{Options, Refusal, read_options};
pub use values::{LARGEST_ARENA, SMALLEST_ARENA, USUAL_ARENA};
