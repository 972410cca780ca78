// The pieces of a written term.
/// One piece of a written term in prefix form: a constructor stands before its parts.
///
/// `Tuple(n)` is followed by `n` terms, `Map(n)` by `n` pairs of key and value, `Bin(n)` by `n`
/// `Byte` items, `Cons` by its head and its tail. `Held(r)` is the term that register `r` holds.
#[derive(Clone, Copy)]
pub enum Item {
    Int(i128),
    Atom(u64),
    Pid(u64),
    Nil,
    Cons,
    Tuple(u64),
    Map(u64),
    Bin(u64),
    Byte(u8),
    Held(u8),
}
