// Ranges of places in a memory.

/// A row of words from `start` to `end`, of which those from `top` on are free: start <= top <= end, all places.
#[derive(Clone, Copy)]
pub struct Room {
    pub start: u64,
    pub top: u64,
    pub end: u64,
}

/// The places from `start` up to and without `end`.
#[derive(Clone, Copy, Default)]
pub struct Span {
    pub start: u64,
    pub end: u64,
}
