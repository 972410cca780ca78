// Names of atoms are numbered until the table is full, and again after some are forgotten.
use crate::parsing::{Task, holds};
use atom_names::{AtomNames, MOST_NAMES};

// Whether each number up to the greatest is that of its name, two bytes that say it.
fn numbers_all(names: &mut AtomNames) -> bool {
    for k in 0..MOST_NAMES as u64 {
        if names.intern(&[(k / 128) as u8, (k % 128) as u8]) != Some(k) {
            return false;
        }
    }
    names.count() == MOST_NAMES as u64 && names.intern(b"fresh").is_none()
}

// Whether names are numbered, read and forgotten.
pub(crate) fn numbers_hold(names: &mut AtomNames) -> bool {
    if !numbers_all(names) || names.count() <= 300 || names.name(300) != [2, 44].as_slice() {
        return false;
    }
    names.forget(100);
    names.count() == 100 && numbers_all(names)
}

#[test]
fn names_are_numbered_until_all_numbers_are_taken(rt: HostRuntime) {
    assert!(rt; holds(rt.alloc(), Task::Numbers));
}
