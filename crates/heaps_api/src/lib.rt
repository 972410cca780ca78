//! What the verbs of processes ask of a memory: a trait with a call for each thing that they read, build, move or give up, and the words in which they ask.
#![tactic(auto)]

mod heaps;
mod making;
mod waiting;
mod wanted;

pub use heaps::Heaps;
pub use making::{Make, words_to_make};
pub use waiting::{Message, Waiting};
pub use wanted::{Want, words_wanted};
