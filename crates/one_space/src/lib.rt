//! One heap for all processes, in two halves, as the memory of a space: a collection moves all that lives to the other half.
#![tactic(auto)]

mod entering;
mod gaining;
mod gathering;
mod heap;
mod putting;
mod rows;
mod space;

pub use heap::OneHeap;
pub use space::{LEAST_WORDS, OneSpace, start};
