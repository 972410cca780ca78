//! Copies of trees without sharing: each object that does not stay is copied as often as the tree has it, and holders and
//! funs are counted.
#![tactic(auto)]

mod copying;
mod objects;
mod scanning;

pub use copying::copy_tree;
