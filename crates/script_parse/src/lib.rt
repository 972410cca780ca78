//! Lines of a script read into commands, by the grammar of `script_grammar`.
#![tactic(auto)]

mod atoms;
mod blanks;
mod buffer;
mod forms;
mod lines;
mod numbers;
mod output;
mod terms;
mod verbs;
mod words;

pub use buffer::{Code, MOST_ITEMS};
pub use lines::{one_reading, parse};
