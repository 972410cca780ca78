//! Terms as plain trees: the written form, and the definitions that every other crate is measured by.
#![tactic(auto)]

mod comparison;
mod item;
pub mod laws;
mod measures;
mod reading;
mod tree;

pub use comparison::order;
pub use item::Item;
pub use measures::{depth, flat, nodes};
pub use tree::{Tree, TreeFault};
