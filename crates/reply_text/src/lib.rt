//! The texts of replies that tell the store, part by part: fields, entries of lists, words and bytes.
#![tactic(auto)]

mod entries;
mod fields;

pub use entries::{put_bin, put_fun, put_number, put_object};
pub use fields::put_fields;
