//! What the verbs on terms do to words, in whatever space: the part that is picked, the map with a pair more, a term in many places.
#![tactic(auto)]

mod cut;
mod keys;
mod many;
mod pairs;
mod parts;

pub use cut::{has_part, sub_part};
pub use many::{repeat_words, repeated};
pub use pairs::{Place, PutStop, map_with, place_in};
pub use parts::part;
