//! The collector. A whole collection moves each root by one of the calls below and scans until nothing copied names an old place.
//! It promises that the roots' new words stand for the trees of the old ones, each object copied once, and that what stays stays.
//! A caller owes a plan (what the roots stand for, what stays, rooms that hold the rest), and writes only beside these in between.
#![tactic(auto)]

mod collection;
mod laws;
mod moving;
mod objects;
mod parts;
mod roots;
mod spine;
mod stay;

pub use collection::{collect, collect_with};
pub use laws::{
    calls_change_no_other_words, collections_can_follow, counted_places_bound_rooms,
    images_keep_their_shape, images_last, memories_get_single_roles, new_roots_reach_the_copies,
    places_without_roles_lie_beside, ready_collections_run, rooms_are_tiled, roots_become_images,
    scanned_collections_are_whole, spans_are_counted, writes_beside_keep_collections,
};
pub use moving::Moving;
pub use objects::evacuate;
pub use parts::scan;
pub use roots::{evacuate_all, evacuate_at, evacuate_places};
pub use stay::Stay;
