//! Records move: each that the objects of a chain name is copied once, and the objects name the copy; and the way there from a collection.
#![tactic(auto)]

mod laws;
mod moves;
mod sweeps;
mod tables;

pub use laws::{moved_records_are_all, renewed_tables_name_the_copies};
pub use moves::{MOVED, move_records};
pub use sweeps::{
    collections_leave_front_sweeps, collections_leave_sweeps, swept_records_can_move,
};
pub use tables::renew;
