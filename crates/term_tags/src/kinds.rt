// What a word is.
ghost use Rattle.std.specs.Prelude.{◌≡◌, ◌≢◌, ◌/◌, ◌%◌, ◌^◌, ◌<◌, ◌⊎◌, true, false, nat_lt, if◌then◌else◌};
ghost use Rattle.term_tags.specs.Words.{small_of_bits, small_value};
ghost use Rattle.term_tags.specs.Kinds.{InRange, kind_word, ReadsAs};
ghost use Rattle.term_tags.specs.declared.kinds.Kind.{Kind as AnyKind};

/// How many places a pointer can name.
pub const PLACES: u64 = 1 << 24;

/// How many arities a header can have, and how many subtags.
pub const ARITIES: u64 = 1 << 24;

pub const SUBTAGS: u64 = 16;

/// How many process numbers there are.
pub const PIDS: u64 = 1 << 41;

/// How many names the table of atoms can hold.
pub const ATOMS: u64 = 16384;

/// The word of the empty list.
pub const NIL: u64 = 59;

/// How many small integers there are, half of them negative.
pub const SMALLS: i64 = 1 << 60;

/// The kinds of words. A pointer has the place that it leads to, a header its subtag and its arity, and `Other` is every
/// word that no maker gives.
#[derive(Clone, Copy)]
pub enum Kind {
    Small(i64),
    Pid(u64),
    Atom(u64),
    Nil,
    ListAt(u64),
    BoxedAt(u64),
    Header(u8, u64),
    Other,
}

/// The kind of a word, by its low bits (The BEAM Book) and the range of what stands above them (this project).
#[inline]
pub fn kind_of(w: u64) -> Kind
    ensures exact { ReadsAs w result }
    ensures back { (k : AnyKind) → InRange k → w ≡ kind_word k → result ≡ k }
    ensures small { w % 16 ≡ 15 → result ≡ Kind.Small (small_value w) }
    ensures pid { w % 16 ≡ 3 → w < 2 ^ 45 → result ≡ Kind.Pid (w / 16) }
    ensures atom { w % 64 ≡ 11 → w < 2 ^ 20 → result ≡ Kind.Atom (w / 64) }
    ensures nil { w ≡ NIL → result ≡ Kind.Nil }
    ensures list { w % 4 ≡ 1 → w < 2 ^ 26 → result ≡ Kind.ListAt (w / 4) }
    ensures boxed { w % 4 ≡ 2 → w < 2 ^ 26 → result ≡ Kind.BoxedAt (w / 4) }
    ensures header { w % 4 ≡ 0 → w < 2 ^ 30 → result ≡ Kind.Header (w / 4 % 16) (w / 64) }
{
    match w % 4 {
        0 => header_of(w),
        1 if w / 4 < PLACES => Kind::ListAt(w / 4),
        2 if w / 4 < PLACES => Kind::BoxedAt(w / 4),
        3 => immediate_of(w),
        _ => Kind::Other,
    }
}

// The kind of a word that ends in 00.
fn header_of(w: u64) -> Kind
    requires { w % 4 ≡ 0 }
    ensures { result ≡ (if nat_lt w (2 ^ 30) then Kind.Header (w / 4 % 16) (w / 64) else Kind.Other) }
{
    if w / 64 < ARITIES {
        Kind::Header((w / 4 % 16) as u8, w / 64)
    } else {
        Kind::Other
    }
}

// The kind of a word that ends in 11.
fn immediate_of(w: u64) -> Kind
    requires { w % 4 ≡ 3 }
    ensures small { w % 16 ≡ 15 → result ≡ Kind.Small (small_value w) }
    ensures pid { w % 16 ≡ 3 → result ≡ (if nat_lt w (2 ^ 45) then Kind.Pid (w / 16) else Kind.Other) }
    ensures atom { w % 64 ≡ 11 → result ≡ (if nat_lt w (2 ^ 20) then Kind.Atom (w / 64) else Kind.Other) }
    ensures nil { w ≡ NIL → result ≡ Kind.Nil }
    ensures other { w % 16 ≢ 15 → w % 16 ≢ 3 → w % 64 ≢ 11 → w ≢ NIL → result ≡ Kind.Other }
{
    match w % 16 {
        15 => Kind::Small(value_of(w / 16)),
        3 if w / 16 < PIDS => Kind::Pid(w / 16),
        11 if w % 64 == 11 && w / 64 < ATOMS => Kind::Atom(w / 64),
        11 if w == NIL => Kind::Nil,
        _ => Kind::Other,
    }
}

// The small integer with these 60 bits, of which the highest is the sign.
fn value_of(bits: u64) -> i64
    requires { bits < 2 ^ 60 }
    ensures { result ≡ small_of_bits bits }
{
    if bits < 1 << 59 {
        bits as i64
    } else {
        bits as i64 - SMALLS
    }
}

/// Whether a word is a pointer, to a cons or to an object with a header.
#[inline]
pub fn is_pointer(w: u64) -> bool
    ensures yes { result ≡ true → (w % 4 ≡ 1) ⊎ (w % 4 ≡ 2) }
    ensures no { result ≡ false → (w % 4 ≡ 1) ⊎ (w % 4 ≡ 2) → ⊥ }
{
    let tag = w % 4;
    tag == 1 || tag == 2
}

/// Whether a word is a pointer to a cons.
#[inline]
pub fn is_list(w: u64) -> bool
    ensures yes { result ≡ true → w % 4 ≡ 1 }
    ensures no { result ≡ false → w % 4 ≢ 1 }
{
    w % 4 == 1
}

/// Whether a word is a pointer to an object with a header.
#[inline]
pub fn is_boxed(w: u64) -> bool
    ensures yes { result ≡ true → w % 4 ≡ 2 }
    ensures no { result ≡ false → w % 4 ≢ 2 }
{
    w % 4 == 2
}

/// Whether a word may be a header: what it tells apart are the first words of objects, a header or the head of a cons.
#[inline]
pub fn is_header(w: u64) -> bool
    ensures yes { result ≡ true → w % 4 ≡ 0 }
    ensures no { result ≡ false → w % 4 ≢ 0 }
{
    w % 4 == 0
}

/// Whether a word is neither a pointer nor a header.
#[inline]
pub fn is_immediate(w: u64) -> bool
    ensures yes { result ≡ true → w % 4 ≡ 3 }
    ensures no { result ≡ false → w % 4 ≢ 3 }
{
    w % 4 == 3
}

/// The place that a pointer leads to.
#[inline]
pub fn place_of(pointer: u64) -> u64
    ensures { result ≡ pointer / 4 }
{
    pointer / 4
}

/// The words that stand behind a header in its object.
#[inline]
pub fn arity_of(header: u64) -> u64
    ensures { result ≡ header / 64 }
{
    header / 64
}

/// The subtag of a header.
#[inline]
pub fn subtag_of(header: u64) -> u8
    ensures { result ≡ header / 4 % 16 }
{
    (header / 4 % 16) as u8
}
