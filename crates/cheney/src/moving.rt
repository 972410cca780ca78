// What a collection is told: what stays, where most of what moves lies, what is mature, and the rooms for what moves.
use crate::stay::Stay;
use word_mem::{Room, Span};

/// Objects in `mature` go to `aged`, all others to `young`, but for those in `stay`, which do not move. No span that stays
/// meets `from_space`, which is looked at first: it may be empty.
#[derive(Drop)]
pub struct Moving {
    pub stay: Stay,
    pub from_space: Span,
    pub mature: Span,
    pub aged: Room,
    pub young: Room,
}
