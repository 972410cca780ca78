// What a comparison answers.

/// The order of two terms; `Beyond` where one of them has more than 1,048,576 nodes or is deeper than 1,024.
#[derive(Clone, Copy)]
pub enum Compared {
    Less,
    Same,
    More,
    Beyond,
}
