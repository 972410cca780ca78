// Words of terms and layouts of objects, written out by hand.
use term_tags::{
    Kind, atom, boxed_at, head_of, is_pointer, kind_of, layout_of, list_at, nil, pid, small,
    traced_from,
};

// Words of each kind up to the last of its range, and at the end those of no kind: a port, a catch, a second nil, and what is
// past its range, a pid, an atom, two pointers, a header.
const KINDS: [(u64, Kind); 21] = [
    (18_446_744_073_709_551_615, Kind::Small(-1)),
    (15, Kind::Small(0)),
    (
        9_223_372_036_854_775_807,
        Kind::Small(576_460_752_303_423_487),
    ),
    (
        9_223_372_036_854_775_823,
        Kind::Small(-576_460_752_303_423_488),
    ),
    (19, Kind::Pid(1)),
    (35_184_372_088_819, Kind::Pid(2_199_023_255_551)),
    (331, Kind::Atom(5)),
    (1_048_523, Kind::Atom(16_383)),
    (59, Kind::Nil),
    (29, Kind::ListAt(7)),
    (30, Kind::BoxedAt(7)),
    (0, Kind::Header(0, 0)),
    (316, Kind::Header(15, 4)),
    (7, Kind::Other),
    (27, Kind::Other),
    (123, Kind::Other),
    (35_184_372_088_835, Kind::Other),
    (1_048_587, Kind::Other),
    (67_108_865, Kind::Other),
    (67_108_866, Kind::Other),
    (1_073_741_824, Kind::Other),
];

// A kind by its number, its value and its second number.
fn told(kind: Kind) -> (u8, i64, u64) {
    match kind {
        Kind::Small(i) => (0, i, 0),
        Kind::Pid(n) => (1, 0, n),
        Kind::Atom(k) => (2, 0, k),
        Kind::ListAt(place) => (3, 0, place),
        Kind::BoxedAt(place) => (4, 0, place),
        Kind::Header(subtag, arity) => (5, i64::from(subtag), arity),
        Kind::Nil => (6, 0, 0),
        Kind::Other => (7, 0, 0),
    }
}

fn kinds_are_told() -> bool {
    for (word, kind) in &KINDS {
        if told(kind_of(*word)) != told(*kind) {
            return false;
        }
    }
    true
}

fn immediates_are_made() -> bool {
    small(-1) == 18_446_744_073_709_551_615
        && small(0) == 15
        && small(576_460_752_303_423_487) == 9_223_372_036_854_775_807
        && small(-576_460_752_303_423_488) == 9_223_372_036_854_775_823
        && pid(1) == 19
        && atom(2) == 139
        && nil() == 59
}

fn pointers_and_headers_are_made() -> bool {
    list_at(5) == 21
        && boxed_at(5) == 22
        && head_of(0, 0) == 0
        && head_of(0, 2) == 128
        && head_of(15, 4) == 316
}

fn pointers_are_known() -> bool {
    !is_pointer(28) && is_pointer(29) && is_pointer(30) && !is_pointer(31)
}

// Headers, with the words of their objects, the first traced one, and how many are traced.
const LAYOUTS: [(u64, Option<(u64, u64, u64)>); 18] = [
    // tuples of 0, of 65,536 and of 65,537 parts
    (0, Some((1, 1, 0))),
    (4_194_304, Some((65_537, 1, 65_536))),
    (4_194_368, None),
    // subtag 1; big integers of one digit, of two and of three
    (4, None),
    (72, Some((2, 2, 0))),
    (140, Some((3, 3, 0))),
    (200, None),
    // a reference; funs of arity 7 and 4; subtag 6
    (144, Some((3, 3, 0))),
    (468, Some((8, 6, 2))),
    (276, None),
    (88, None),
    // a holder; heap binaries of arity 1 and 10; a part
    (352, Some((6, 6, 0))),
    (100, Some((2, 2, 0))),
    (676, None),
    (296, Some((5, 4, 1))),
    // maps of arity 4 and 35; a pointer
    (316, Some((5, 2, 3))),
    (2_300, None),
    (22, None),
];

// Whether the layout is this, and the first traced word that of the layout, where there is one.
fn is_laid(header: u64, shape: Option<(u64, u64, u64)>) -> bool {
    let Some(layout) = layout_of(header) else {
        return shape.is_none();
    };
    shape == Some((layout.words, layout.first, layout.count)) && traced_from(header) == layout.first
}

fn objects_are_laid() -> bool {
    for (header, shape) in &LAYOUTS {
        if !is_laid(*header, *shape) {
            return false;
        }
    }
    true
}

#[test]
fn words_and_layouts_are_as_written_out(rt: HostRuntime) {
    assert!(rt; kinds_are_told());
    assert!(rt; immediates_are_made());
    assert!(rt; pointers_and_headers_are_made());
    assert!(rt; pointers_are_known());
    assert!(rt; objects_are_laid());
}
