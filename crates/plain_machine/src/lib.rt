//! The plain machine: what a line of a script does to terms that have no addresses.
#![tactic(auto)]

mod costs;
mod laws;
mod limits;

pub use costs::{AREA_COST, COUNTED_COST, MESSAGE_COST, PLACE_COST, PROCESS_COST, RECORD_COST};
pub use laws::{
    numbers_are_fresh, printing_leaves, refusals_leave, replies_determine, runs_join,
    trees_stay_proper,
};
pub use limits::{MOST_ARITY, MOST_BYTE, MOST_FILL, MOST_PLACES, MOST_PROCESSES};
pub use script_grammar::{
    Command, Depth, Measure, Pick, Refusal, Reg, Shape, SysVerb, SysWord, To, Verb, Word,
};
