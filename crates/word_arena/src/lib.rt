//! The arena: a memory as a row of blocks side by side, each free or with a kind and an owner.
#![tactic(auto)]

mod arena;
mod blocks;
mod holes;
mod laws;
mod packing;
mod rows;
mod shifts;
mod stretches;
mod tops;

pub use arena::Arena;
pub use blocks::{KINDS, LAST_KIND};
pub use laws::{
    blocks_are_one_or_apart, blocks_in_use_move_down_as_one, blocks_stay_with_the_headers,
    free_blocks_lose_nothing_to_what_comes_free, given_words_join_two_free_blocks_at_most,
    greatest_blocks_lose_what_is_taken, lent_memories_come_back, sums_stay_with_the_headers,
    words_are_free_or_in_use, words_inside_a_block_are_no_headers,
};
pub use shifts::Shifts;
