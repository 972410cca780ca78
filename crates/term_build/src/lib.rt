//! Builders of terms: each takes words of a room and answers the word of the new term.
#![tactic(auto)]

mod funs;
mod heap_bins;
mod holders;
mod integers;
mod laws;
mod lists;
mod maps;
mod references;
mod rows;
mod sub_bins;
mod tuples;

pub use funs::fun_thing;
pub use heap_bins::heap_bin;
pub use holders::holder;
pub use integers::integer;
pub use laws::{roles_grow_one_after_the_other, taken_words_keep_one_role};
pub use lists::cons;
pub use maps::map_in_order;
pub use references::reference;
pub use sub_bins::sub_bin;
pub use tuples::{same_tuple, tuple};
