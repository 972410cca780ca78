//! Maps built from pairs in any order: the keys are sorted, and the later of two equal ones stands.
#![tactic(auto)]

mod laws;
mod maps;
mod sorted;

pub use laws::keys_in_order_rise;
pub use maps::{MapStop, map, map_of_row};
pub use sorted::Spot;
