//! One line of a script done and answered, and whole scripts served, over any space, source and sink.
#![tactic(auto)]

mod act;
mod laws;
mod machine;
mod numbers;
mod reply;
mod serving;
mod texts;

pub use laws::replies_determine;
pub use machine::{Machine, Stepped, step};
pub use serving::{Status, serve};
