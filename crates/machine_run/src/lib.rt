//! A whole run of the program over any source and sink: what the words of a command line ask for is done, and the machine is left
//! in its last state.
#![tactic(auto)]

mod arguments;
mod made;
mod opening;
mod runs;
mod serving;
mod statuses;
mod store;
mod summary;

pub use arguments::run_with;
pub use engine::Status;
pub use opening::first_machine;
pub use runs::run;
pub use serving::LIMITS;
pub use statuses::{complaint, number};
pub use store::Store;
