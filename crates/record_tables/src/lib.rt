//! Tables of records: where the binaries' records and the funs' lie, in rising order, and what keeps them so.
#![tactic(auto)]

mod spots;

pub use spots::{fun_at, spot_of};
