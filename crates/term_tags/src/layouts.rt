// The layout of the object behind a header.
ghost use Rattle.std.specs.Prelude.{◌≡◌, ◌+◌, ◌/◌, ◌%◌, ◌≤◌, ◌⊎◌, Some, IfSome};
ghost use Rattle.term_tags.specs.Table.{subtag_of, object_for, layout_for, row_layout};
ghost use Rattle.term_tags.specs.declared.layouts.Layout.{Layout as Shape};

/// The subtag of a tuple of n parts: header, then the parts. Arity n (this project, as all numbers of subtags).
pub const TUPLE: u8 = 0;
/// The subtag of a positive big integer: header, one or two digits of 64 bits, the least first. Arity 1 or 2.
pub const POS_BIG: u8 = 2;
/// The subtag of a negative big integer, with the digits of its magnitude.
pub const NEG_BIG: u8 = 3;
/// The subtag of a reference: header, process number, its number in that process. Arity 2.
pub const REF: u8 = 4;
/// The subtag of a fun of k environment words: header, record place, next, arity, k, creator's pid word, the
/// environment. Header arity k + 5.
pub const FUN: u8 = 5;
/// The subtag of a holder: header, size in bytes, next, record place, bytes, flags. Arity 5.
pub const HOLDER: u8 = 8;
/// The subtag of a binary on the heap: header, size in bytes, its bytes in words. Arity 1 and the number of those
/// words.
pub const HEAP_BIN: u8 = 9;
/// The subtag of a sub binary: header, size, offset, bit word, the boxed original. Arity 4.
pub const SUB_BIN: u8 = 10;
/// The subtag of a flat map of n keys: header, n, the boxed tuple of keys, n values. Arity n + 2.
pub const MAP: u8 = 15;

/// The most parts of a tuple.
pub const MOST_PARTS: u64 = 65536;
/// The most environment words of a fun.
pub const MOST_ENV: u64 = 64;
/// The most bytes of a binary on the heap.
pub const MOST_HEAP_BYTES: u64 = 64;
/// The most keys of a flat map.
pub const MOST_KEYS: u64 = 32;

/// The kinds of objects with a header, one for each subtag.
#[derive(Clone, Copy)]
pub enum Object {
    Tuple,
    PosBig,
    NegBig,
    Ref,
    Fun,
    Holder,
    HeapBin,
    SubBin,
    Map,
}

/// The kind of object that the subtag of a header tells, or `None` for a subtag of no object.
#[inline]
pub fn object_of(header: u64) -> Option<Object>
    ensures table { result ≡ object_for (header / 4 % 16) }
    ensures subtag { IfSome result (λ o. header / 4 % 16 ≡ subtag_of o) }
{
    match (header / 4 % 16) as u8 {
        TUPLE => Some(Object::Tuple),
        POS_BIG => Some(Object::PosBig),
        NEG_BIG => Some(Object::NegBig),
        REF => Some(Object::Ref),
        FUN => Some(Object::Fun),
        HOLDER => Some(Object::Holder),
        HEAP_BIN => Some(Object::HeapBin),
        SUB_BIN => Some(Object::SubBin),
        MAP => Some(Object::Map),
        _ => None,
    }
}

/// The shape of an object, in words: its size with the header, and its traced words, which are its last `count` words,
/// from the word `first` on. Where no word is traced, `first` is the size.
#[derive(Clone, Copy)]
pub struct Layout {
    pub words: u64,
    pub first: u64,
    pub count: u64,
}

/// The layout of the object with this header, or `None` for every word that is the header of no object.
pub fn layout_of(header: u64) -> Option<Layout>
    ensures table { result ≡ layout_for header }
    ensures sizes { IfSome result (λ l. (l.words ≡ 1 + header / 64) × (1 ≤ l.first) × (l.first + l.count ≡ l.words) × (l.words ≤ 65537)) }
{
    if header % 4 != 0 {
        return None;
    }
    let arity = header / 64;
    match (header / 4 % 16) as u8 {
        TUPLE => row(arity, 0, MOST_PARTS, 1),
        POS_BIG | NEG_BIG => row(arity, 1, 2, 1 + arity),
        REF => row(arity, 2, 2, 3),
        FUN => row(arity, 5, 5 + MOST_ENV, 6),
        HOLDER => row(arity, 5, 5, 6),
        HEAP_BIN => row(arity, 1, 1 + MOST_HEAP_BYTES / 8, 1 + arity),
        SUB_BIN => row(arity, 4, 4, 4),
        MAP => row(arity, 2, 2 + MOST_KEYS, 2),
        _ => None,
    }
}

// The layout of an object whose arity lies between two bounds, and whose words are traced from `first` on.
fn row(arity: u64, least: u64, most: u64, first: u64) -> Option<Layout>
    requires bound { most ≤ MOST_PARTS }
    requires traced { least ≤ arity → first ≤ 1 + arity }
    ensures { result ≡ row_layout arity least most first }
{
    if least <= arity && arity <= most {
        let words = 1 + arity;
        Some(Layout {
            words,
            first,
            count: words - first,
        })
    } else {
        None
    }
}

/// The first traced word of the object with this header, counted from its place; its size, if it has none. Of a header of no
/// object it is at most 6, or the size.
#[inline]
pub fn traced_from(header: u64) -> u64
    ensures first { (l : Shape) → layout_for header ≡ Some l → result ≡ l.first }
    ensures most { result ≤ 6 ⊎ (result ≡ 1 + header / 64) }
{
    let subtag = (header / 4 % 16) as u8;
    if subtag == TUPLE {
        return 1;
    }
    if subtag == MAP {
        return 2;
    }
    if subtag == SUB_BIN {
        return 4;
    }
    if subtag == FUN {
        return 6;
    }
    1 + header / 64
}
