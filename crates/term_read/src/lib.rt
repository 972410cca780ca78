//! The calls that read a part of a term by its word.
#![tactic(auto)]

mod binary;
mod cons;
mod fun_thing;
mod looks;
mod map;
mod object;
mod tuple;

pub use binary::{byte_at, byte_len};
pub use cons::{hd, tl};
pub use fun_thing::fun_env;
pub use looks::{Bytes, Digits, FunParts, Look, PairRows, PartBytes, Row, look_at};
pub use map::{map_key, map_len, map_value};
pub use tuple::element;
