//! The image of a store, which is what a dump tells of it; and a trait of spaces over words, each of which has one.
#![tactic(auto)]

mod imaged;

pub use imaged::Imaged;
