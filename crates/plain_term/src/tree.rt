// Trees, and the bytes of binaries.
ghost use Rattle.std.specs.Prelude.{◌≡◌, [], take, drop};
ghost use Rattle.plain_term.specs.View.{view};
ghost use Rattle.plain_term.specs.Bytes.{bytes_of};

use sqlite_items::{Boxed, Items};

/// Why items gave no tree.
#[derive(Clone, Copy, Debug, PartialEq, Eq)]
pub enum TreeFault {
    Memory,
    Items,
}

/// A term by value, for tests of the calls that work on words.
#[derive(Drop)]
pub enum Tree {
    /// An integer of magnitude below 2^127.
    Int(i128),
    /// The number of a name, counted from 0.
    Atom(u64),
    Pid(u64),
    /// The number of the process that made it, and which of its references it is.
    Ref(u64, u64),
    Nil,
    /// Head and tail.
    Cons(Boxed<Tree>, Boxed<Tree>),
    Tuple(Items<Tree>),
    Map(Items<(Tree, Tree)>),
    Bin(Items<u8>),
    /// The number of a shared binary, counted from 1.
    Shared(u64),
    /// Base, offset and length in bytes.
    Part(Boxed<Tree>, u64, u64),
    /// The number of its name, its arity, the number of the process that made it, and its
    /// environment.
    Fun(u64, u64, u64, Items<Tree>),
}

/// The bytes of a binary that is whole in the tree; another term has none.
pub fn bytes(t: &Tree) -> &[u8]
    ensures { result.now ≡ bytes_of [] (view t.now) }
{
    match t {
        Tree::Bin(bytes) => bytes.as_slice(),
        Tree::Part(base, offset, len) => slice_of(bytes(base.get()), *offset, *len),
        _ => &[],
    }
}

// What a slice has from an offset on, at most `len` bytes.
fn slice_of(bytes: &[u8], offset: u64, len: u64) -> &[u8]
    ensures { result.now ≡ take len (drop offset bytes.now) }
{
    let from = bytes.len().min(offset as usize);
    let rest = &bytes[from..];
    let count = rest.len().min(len as usize);
    &rest[..count]
}
