//! Counted records: the bytes of a shared binary, or a fun's name and arity, with the number of objects that name them.
#![tactic(auto)]

mod bytes;
mod counts;
mod heads;
mod laws;

pub use bytes::{fill, put_byte};
pub use counts::{Dropped, add, count_of, drop_one, is_fun, len_of, serial_of};
pub use heads::{HEAD_WORDS, write_bin, write_fun};
pub use laws::kept_content_keeps_records;
