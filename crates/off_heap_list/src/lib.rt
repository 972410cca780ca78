//! Chains of holders and funs: lists of distinct objects, by which the counts of the records that they name are kept.
#![tactic(auto)]

mod chains;
mod deal;
mod laws;
mod links;
mod sweep;
mod turn;
mod whole;

pub use chains::{Unchained, chain, unchain};
pub use deal::{Dealt, deal_chain};
pub use laws::{
    chained_objects_stay, chains_of_what_is_reached_are_many,
    chains_of_what_is_reached_count_exactly, each_of_several_chains_is_one,
    holders_and_funs_are_links, many_chains_are_chains, relocated_chains_stand, sweeps_end,
    sweeps_go_on, swept_fronts_leave_the_rest, swept_records_are_counted_or_told,
    turns_begin_and_end,
};
pub use links::{next_of, record_of, set_next, set_record};
pub use sweep::{Sweep, Swept, held_in, sweep_next, sweep_one};
pub use turn::{Turn, turn_next};
pub use whole::{FrontLeft, Order, Survivors, sweep_chain, sweep_front, turn_chain, turn_onto};
