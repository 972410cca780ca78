//! The language of scripts: its words, terms, grammar, and the commands that lines come to.
#![tactic(auto)]

mod command;
mod limits;
mod refusal;
mod word;

pub use command::{Command, Depth, Measure, Pick, Reg, Shape, SysVerb, To, Verb};
pub use limits::{LEVELS, MOST_HELD, NUMBERS, REGISTERS};
pub use refusal::Refusal;
pub use word::{SysWord, Word};
