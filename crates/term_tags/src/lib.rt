//! The words of terms: tags, headers, and the layout of the object behind a header.
#![tactic(auto)]

mod kinds;
mod laws;
mod layouts;
mod makers;
mod records;

pub use kinds::{
    ATOMS, Kind, PIDS, PLACES, arity_of, is_boxed, is_header, is_immediate, is_list, is_pointer,
    kind_of, place_of, subtag_of,
};
pub use laws::table_of_layouts;
pub use layouts::{
    FUN, HEAP_BIN, HOLDER, Layout, MAP, MOST_ENV, MOST_HEAP_BYTES, MOST_KEYS, MOST_PARTS, NEG_BIG,
    Object, POS_BIG, REF, SUB_BIN, TUPLE, layout_of, object_of, traced_from,
};
pub use makers::{atom, boxed_at, head_of, list_at, nil, pid, small};
pub use records::{BIN_RECORD, FUN_RECORD};
