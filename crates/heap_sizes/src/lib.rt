//! The sizes that a heap may have.
#![tactic(auto)]

mod sizes;

pub use sizes::next_size;
