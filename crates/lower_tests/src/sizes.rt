// The least size of a heap that is enough.
use heap_sizes::next_size;

const ROWS: [(u64, Option<u64>); 9] = [
    (0, Some(12)),
    (12, Some(12)),
    (13, Some(38)),
    (233, Some(233)),
    (234, Some(376)),
    (833_026, Some(833_026)),
    (833_027, Some(999_631)),
    (15_401_305, Some(15_401_305)),
    (15_401_306, None),
];

#[test]
fn the_least_size_that_is_enough_is_answered(rt: HostRuntime) {
    for (words, size) in &ROWS {
        assert!(rt; next_size(*words) == *size);
    }
}
