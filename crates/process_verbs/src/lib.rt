//! The verbs of processes over any memory of them: a space whose words, records and collections are the memory's own.
#![tactic(auto)]

mod asking;
mod making;
mod messages;
mod over;
mod queue;
mod terms;
mod told;
mod verbs;

pub use over::Over;
pub use verbs::{ROW, Verbs};
