// The order of two words without their parts.
ghost use Rattle.std.specs.Prelude.{◌≡◌, ℕ, List};
ghost use Rattle.std.specs.Ordering.{nat_cmp, ordering_then};
ghost use Rattle.term_order.specs.Own.{look_rank, look_int, look_name, look_first, look_second, look_third, look_data, IsReadable, IsBytes, looks_order};

use crate::bytes::order_bytes;
use atom_names::AtomNames;
use std::cmp::Ordering;
use term_read::{Bytes, Look};
use word_mem::WordMem;

/// The order of two words by all that is compared before their parts: kinds, values, names, numbers and bytes.
pub fn order_looks(mem: &WordMem, names: &AtomNames, l: Look, m: Look) -> Ordering
    requires first { IsReadable mem.now names.now l }
    requires second { IsReadable mem.now names.now m }
    ensures { (xs ys : List ℕ) → IsBytes mem.now (look_data l) xs → IsBytes mem.now (look_data m) ys → result ≡ looks_order names.now l m xs ys }
{
    if let Look::Cons(_) = l {
        if let Look::Cons(_) = m {
            return Ordering::Equal;
        }
    }
    let kinds = rank(l).cmp(&rank(m));
    let values = integer(mem, names, l).cmp(&integer(mem, names, m));
    let named = name(mem, names, l).cmp(name(mem, names, m));
    let counts = order_numbers(l, m);
    let bytes = order_bytes(mem, data(l), data(m));
    kinds.then(values.then(named.then(counts.then(bytes))))
}

// The kinds, from the least.
fn rank(look: Look) -> u64
    ensures { result ≡ look_rank look }
{
    match look {
        Look::Small(_) => 0,
        Look::Big(_) => 0,
        Look::Atom(_) => 1,
        Look::Ref(_, _) => 2,
        Look::Fun(_) => 3,
        Look::Pid(_) => 4,
        Look::Tuple(_) => 5,
        Look::Map(_) => 6,
        Look::Nil => 7,
        Look::Cons(_) => 8,
        Look::Heap(_) => 9,
        Look::Holder(_) => 9,
        Look::Part(_) => 9,
    }
}

/// The value of an integer, 0 of anything else.
pub fn integer(mem: &WordMem, names: &AtomNames, look: Look) -> i128
    requires { IsReadable mem.now names.now look }
    ensures { result ≡ look_int look }
{
    match look {
        Look::Small(i) => i as i128,
        Look::Big(digits) => {
            let magnitude = digits.low as i128 + digits.high as i128 * (1 << 64);
            if digits.negative {
                -magnitude
            } else {
                magnitude
            }
        }
        _ => 0,
    }
}

// The name of an atom or of a fun; nothing else has one.
fn name<'a>(mem: &WordMem, names: &'a AtomNames, look: Look) -> &'a [u8]
    requires { IsReadable mem.now names.now look }
    ensures { result.now ≡ look_name names.now look }
{
    match look {
        Look::Atom(k) => names.name(k),
        Look::Fun(parts) => names.name(parts.name),
        _ => &[],
    }
}

// The order of the numbers of process and count, of arity, creator and places, or of sizes.
fn order_numbers(l: Look, m: Look) -> Ordering
    ensures { result ≡ ordering_then (nat_cmp (look_first l) (look_first m))
        (ordering_then (nat_cmp (look_second l) (look_second m)) (nat_cmp (look_third l) (look_third m))) }
{
    let firsts = first(l).cmp(&first(m));
    let seconds = second(l).cmp(&second(m));
    let thirds = third(l).cmp(&third(m));
    firsts.then(seconds.then(thirds))
}

// The number that is compared first: of a process, the arity of a fun, or a size.
fn first(look: Look) -> u64
    ensures { result ≡ look_first look }
{
    match look {
        Look::Ref(number, _) => number,
        Look::Pid(number) => number,
        Look::Fun(parts) => parts.arity,
        Look::Tuple(row) => row.len,
        Look::Map(rows) => rows.len,
        _ => 0,
    }
}

// The number that is compared next: of a reference in its process, or of a fun's creator.
fn second(look: Look) -> u64
    ensures { result ≡ look_second look }
{
    match look {
        Look::Ref(_, count) => count,
        Look::Fun(parts) => parts.creator,
        _ => 0,
    }
}

// The number of places of a fun's environment.
fn third(look: Look) -> u64
    ensures { result ≡ look_third look }
{
    match look {
        Look::Fun(parts) => parts.env.len,
        _ => 0,
    }
}

/// Where the bytes of a binary lie; nothing else has any.
pub fn data(look: Look) -> Bytes
    ensures { result ≡ look_data look }
{
    match look {
        Look::Heap(bytes) => bytes,
        Look::Holder(bytes) => bytes,
        Look::Part(part) => part.bytes,
        _ => Bytes {
            first: 0,
            start: 0,
            len: 0,
        },
    }
}
