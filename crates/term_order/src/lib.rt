//! The order of two terms by their words.
#![tactic(auto)]

mod bytes;
mod compared;
mod comparing;
mod looks;
mod runs;
mod same;

pub use bytes::byte;
pub use compared::Compared;
pub use comparing::compare;
pub use looks::{data, integer};
