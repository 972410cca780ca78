// What the object of a word counts without its parts.
ghost use Rattle.std.specs.Prelude.{◌≡◌, ℕ, ◌+◌, ◌*◌, ◌^◌, ◌≤◌, nat_lt, if◌then◌else◌, Bool, List};
ghost use Rattle.plain_term.specs.Tree.{Tree};
ghost use Rattle.plain_term.specs.Measures.{bin_nodes, flat};
ghost use Rattle.term_words.specs.Stands.{Stands, IsBase, IsTerm};
ghost use Rattle.term_read.specs.Look.{LiesInMemory};
ghost use Rattle.term_walk.specs.Weights.{nodes_in, HasFlat};

use term_read::{Digits, Look, look_at};
use word_mem::WordMem;

/// The nodes of what a word is, without its parts: one, and of a binary one more for each 64 bytes.
pub fn own_nodes(look: Look) -> u64
    ensures value { result ≡ nodes_in look }
    ensures some { 1 ≤ result }
    ensures few { result ≤ 2 ^ 59 }
{
    match look {
        Look::Heap(bytes) => binary_nodes(bytes.len),
        Look::Holder(bytes) => binary_nodes(bytes.len),
        Look::Part(part) => binary_nodes(part.bytes.len),
        _ => 1,
    }
}

// The nodes of a binary of `len` bytes.
fn binary_nodes(len: u64) -> u64
    ensures value { result ≡ bin_nodes len }
    ensures few { result ≤ 2 ^ 59 }
{
    1 + len.div_ceil(64)
}

/// The heap words of what a word is, without its parts; those of a part of a binary with its original.
pub fn own_flat(mem: &WordMem, look: Look) -> u64
    requires { LiesInMemory mem.now look }
    ensures words { HasFlat mem.now look result }
    ensures few { result ≤ 2 ^ 26 }
{
    mem.bounded();
    match look {
        Look::Big(digits) => digit_words(digits),
        Look::Ref(_, _) => 3,
        Look::Cons(_) => 2,
        Look::Tuple(row) => 1 + row.len,
        Look::Map(rows) => 4 + 2 * rows.len,
        Look::Fun(parts) => 6 + parts.env.len,
        Look::Heap(bytes) => 2 + bytes.len.div_ceil(8),
        Look::Holder(_) => 6,
        Look::Part(part) => 5 + base_words(mem, part.base),
        _ => 0,
    }
}

// The words of a big integer.
fn digit_words(digits: Digits) -> u64
    ensures { result ≡ (if nat_lt (digits.low + digits.high * 2 ^ 64) (2 ^ 64) then 2 else 3) }
{
    if digits.high == 0 { 2 } else { 3 }
}

// The words of a binary that is no part of another.
fn base_words(mem: &WordMem, w: u64) -> u64
    requires { IsTerm mem.now w }
    ensures words { (c : ℕ → ℕ → Bool) (shared : List (List ℕ)) (base : Tree) → Stands c shared mem.now w base → IsBase base → result ≡ flat base }
    ensures few { result ≤ 2 ^ 24 + 3 }
{
    mem.bounded();
    if let Look::Heap(bytes) = look_at(mem, w) {
        2 + bytes.len.div_ceil(8)
    } else {
        6
    }
}
