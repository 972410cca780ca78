//! One bounded walk over the words of a term, and the measures that it finds.
#![tactic(auto)]

mod levels;
mod measured;
mod measuring;
mod runs;
mod weights;

pub use levels::{DEPTH_LIMIT, FEW_LEVELS, Further, NODE_LIMIT, Rest, go_on, next_word};
pub use measured::{Measure, Measured};
pub use measuring::{is_beyond, measure};
pub use weights::{own_flat, own_nodes};
