// The word of each kind.
ghost use Rattle.std.specs.Prelude.{◌≡◌, ◌+◌, ◌*◌, ◌-◌, ◌^◌, ◌<◌, pos, negsuc, ◌≤ℤ◌, ◌<ℤ◌};
ghost use Rattle.term_tags.specs.Words.{small_bits, small_word, pid_word, atom_word, list_word, boxed_word, head_word};
ghost use Rattle.term_tags.specs.declared.kinds.TheConstants.{PLACES, ARITIES, SUBTAGS, PIDS, ATOMS};

use crate::kinds::{NIL, SMALLS};

/// The word of a small integer: its 60 bits, and 1111 (The BEAM Book).
#[inline]
pub fn small(i: i64) -> u64
    requires low { negsuc (2 ^ 59 - 1) ≤ℤ i }
    requires high { i <ℤ pos (2 ^ 59) }
    ensures { result ≡ small_word i }
{
    bits_of(i) * 16 + 15
}

// The 60 bits of a small integer.
fn bits_of(i: i64) -> u64
    requires low { negsuc (2 ^ 59 - 1) ≤ℤ i }
    requires high { i <ℤ pos (2 ^ 59) }
    ensures { result ≡ small_bits i }
{
    if i < 0 { (i + SMALLS) as u64 } else { i as u64 }
}

/// The word of a process number, which ends in 0011 (The BEAM Book).
#[inline]
pub fn pid(n: u64) -> u64
    requires { n < PIDS }
    ensures { result ≡ pid_word n }
{
    n * 16 + 3
}

/// The word of the atom of a number in the table of names, which ends in 001011 (The BEAM Book).
#[inline]
pub fn atom(k: u64) -> u64
    requires { k < ATOMS }
    ensures { result ≡ atom_word k }
{
    k * 64 + 11
}

/// The word of the empty list, 59 (this project).
#[inline]
pub fn nil() -> u64
    ensures { result ≡ NIL }
{
    NIL
}

/// The pointer to a cons, which ends in 01 (The BEAM Book); a place is the index of a word.
#[inline]
pub fn list_at(place: u64) -> u64
    requires { place < PLACES }
    ensures { result ≡ list_word place }
{
    place * 4 + 1
}

/// The pointer to an object with a header, which ends in 10 (The BEAM Book).
#[inline]
pub fn boxed_at(place: u64) -> u64
    requires { place < PLACES }
    ensures { result ≡ boxed_word place }
{
    place * 4 + 2
}

/// The header of an object: 00, four bits of subtag, and the arity (The BEAM Book).
#[inline]
pub fn head_of(subtag: u8, arity: u64) -> u64
    requires subtag { subtag < SUBTAGS }
    requires arity { arity < ARITIES }
    ensures { result ≡ head_word subtag arity }
{
    arity * 64 + subtag as u64 * 4
}
