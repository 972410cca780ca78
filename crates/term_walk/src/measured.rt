// What is measured of a term.

/// The nodes of a term, and the heap words of a copy that shares nothing.
#[derive(Clone, Copy)]
pub struct Measure {
    pub nodes: u64,
    pub flat: u64,
}

/// What was measured of a term; `Beyond` where it has more than 1,048,576 nodes or is deeper than 1,024.
#[derive(Clone, Copy)]
pub enum Measured {
    Within(Measure),
    Beyond,
}
