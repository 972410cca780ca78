// What is built of the terms of registers.
ghost use Rattle.std.specs.Prelude.{◌≡◌};
ghost use Rattle.heaps_api.specs.Making.{CanReckon, words_of_make};

use plain_machine::{Reg, Shape};
use term_verbs::{Place, repeat_words};

/// A term that is built for a process, named by registers and not by words, since words change where a collection comes between.
#[derive(Clone, Copy)]
pub enum Make {
    /// A tuple or a list of so many times a register's term.
    Same(Shape, u64, Reg),
    /// A register's map with a pair at a place: the registers of its key and its value.
    Pair(Reg, Place, Reg, Reg),
    /// Bytes of a register's binary: the first of them, and how many.
    Part(Reg, u64, u64),
    /// A reference that the process has not made before.
    Ref,
    /// A binary of equal bytes, at most 64: how many, and the byte.
    Bytes(u64, u8),
}

/// The words that it may take.
pub fn words_to_make(make: Make) -> u64
    requires { CanReckon make }
    ensures { result ≡ words_of_make make }
{
    match make {
        Make::Same(shape, n, _) => repeat_words(shape, n),
        Make::Pair(_, place, _, _) => 6 + 2 * place.keys,
        Make::Part(_, _, _) => 5,
        Make::Ref => 3,
        Make::Bytes(n, _) => 2 + (n + 7) / 8,
    }
}
