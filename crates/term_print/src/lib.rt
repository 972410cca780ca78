//! The text of a term, written from its word.
#![tactic(auto)]

mod binary;
mod levels;
mod own;
mod printing;
mod runs;
mod short;

pub use printing::print;
pub use short::print_short;
