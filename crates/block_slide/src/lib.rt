//! The slide of a memory of blocks: what leads to places is relocated in place, and then the blocks in use are packed.
#![tactic(auto)]

mod laws;
mod parts;
mod passes;
mod places;
mod relocating;

pub use laws::{
    packed_places_differ, slid_blocks_stay, slid_chains_stand, slid_parts_stand, slid_words_lie,
    sums_fit_inside_blocks,
};
pub use parts::Part;
pub use passes::slide;
pub use places::PackedPlaces;
pub use relocating::{relocate_part, relocate_place_list, relocate_places};
