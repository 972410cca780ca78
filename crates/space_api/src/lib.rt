//! What the engine asks of a space: a trait with one call for each verb, whose meaning is the state of the plain machine that the space stands for.
#![tactic(auto)]

mod space;

pub use space::{Seat, Space, Stop};
