//! Texts that are written in parts, one after the other.
#![tactic(auto)]

mod parts;

pub use parts::{put, put_five, put_four, put_three, put_two};
