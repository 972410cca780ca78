//! Words are relocated in place: every pointer, name and `next` is replaced by what a map of places makes of it.
#![tactic(auto)]

mod laws;
mod places;
mod rows;
mod words;

pub use laws::{
    moved_roles_are_single, relocated_rows_are_rows, rows_are_relocated_one_by_one,
    slid_words_stand,
};
pub use places::{MovedSpan, Places};
pub use rows::relocate_row;
pub use words::{relocate_all, relocate_words};
