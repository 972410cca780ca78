//! The words of a written term, built from its items.
#![tactic(auto)]

mod bins;
mod building;
mod needs;
mod putting;

pub use bins::{HOLDER_WORDS, Making, lay_records, long_bins, put_record};
pub use building::{BuildStop, build};
pub use needs::{Needs, term_needs};
