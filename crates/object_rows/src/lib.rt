//! Rows of whole objects side by side: their holders and funs are chained, or counted once more, or once less one by one.
#![tactic(auto)]

mod chaining;
mod dropping;
mod laws;
mod raising;

pub use chaining::{Chained, chain_row, is_link_word};
pub use dropping::{DroppedNext, drop_next};
pub use laws::{rows_stay_where_counts_rise, rows_stay_where_their_words_do};
pub use raising::raise_row;
