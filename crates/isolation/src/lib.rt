//! Isolation: what a process is answered depends on its view of the run alone, in which trees stand by name.
#![tactic(auto)]

mod laws;
mod naming;

pub use laws::{runs_isolate, same_views_are_answered_alike};
pub use naming::{
    growth_keeps_named_trees, named_trees_enter, proper_trees_are_known, what_is_done_is_named,
    what_is_made_is_named, what_is_seen_is_named,
};
