//! The memory of the product: one row of 64-bit words, read and written by place.
#![tactic(auto)]

mod fault;
mod mem;
mod ranges;
mod words;

pub use fault::OpenFault;
pub use mem::WordMem;
pub use ranges::{Room, Span};
