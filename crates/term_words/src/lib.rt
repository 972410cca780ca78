//! What trees the words of a memory stand for, and the laws of it: tests of places and roles, what roots reach, rows of whole objects.
#![tactic(auto)]

mod counted;
mod elsewhere;
mod narrowed;
mod one_role;
mod side_by_side;
mod standing;

pub use counted::{
    flat_size_covers_lists_of_objects, flat_size_covers_objects, flat_size_covers_references,
    lists_without_repetition, packed_words_are_counted, places_are_counted,
};
pub use elsewhere::{relocated_words_stand, roots_stand_by_narrower_tests};
pub use narrowed::narrowed_tests_keep_trees;
pub use one_role::{
    maps_of_roles_are_single, objects_are_one_or_apart, records_are_one_or_apart,
    words_of_objects_have_roles,
};
pub use side_by_side::{
    lists_stand_side_by_side, lists_stand_word_by_word, moved_tiles_lie_side_by_side,
    tiles_lie_side_by_side,
};
pub use standing::{
    carried_objects_keep_reach, carried_objects_keep_trees, idle_writes_keep_trees,
    kept_content_keeps_trees, more_lists_keep_trees, reached_words_stand, rooms_keep_what_is_clear,
    weaker_tests_keep_trees, words_stand_for_one_tree,
};
