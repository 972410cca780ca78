// Messages that wait, read from the first.

/// A place in a queue: where the next message is, where its others go on, which not every memory needs, and how many there are from
/// there on.
#[derive(Clone, Copy)]
pub struct Waiting {
    pub at: u64,
    pub other: u64,
    pub count: u64,
}

/// The word of a message, and those that wait after it.
#[derive(Clone, Copy)]
pub struct Message {
    pub word: u64,
    pub rest: Waiting,
}
