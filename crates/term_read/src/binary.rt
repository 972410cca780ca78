// The bytes of binaries: on the heap, in a record that a holder names, or a part of either.
ghost use Rattle.term_words.specs.Stands.{IsTerm};
ghost use Rattle.term_read.specs.Parts.{TellsOf, byte_len_in, binary_byte_in};
ghost use Rattle.term_read.specs.Data.{HasData};

use crate::looks::{Bytes, Look, look_at};
use word_mem::WordMem;

/// The number of bytes, or `None` where the tree is no binary.
pub fn byte_len(mem: &WordMem, w: u64) -> Option<u64>
    requires { IsTerm mem.now w }
    ensures { TellsOf byte_len_in mem.now w result }
{
    let bytes = data_of(mem, w)?;
    Some(bytes.len)
}

/// Byte `i`, from 0, or `None` where the tree is no binary or has no such byte.
pub fn byte_at(mem: &WordMem, w: u64, i: u64) -> Option<u8>
    requires { IsTerm mem.now w }
    ensures { TellsOf (binary_byte_in i) mem.now w result }
{
    mem.bounded();
    let bytes = data_of(mem, w)?;
    if i < bytes.len {
        let at = bytes.start + i;
        let word = mem.get(bytes.first + at / 8);
        Some(((word >> (at % 8 * 8)) % 256) as u8)
    } else {
        None
    }
}

// Where the bytes of a binary lie.
fn data_of(mem: &WordMem, w: u64) -> Option<Bytes>
    requires { IsTerm mem.now w }
    ensures { HasData mem.now w result }
{
    match look_at(mem, w) {
        Look::Heap(bytes) => Some(bytes),
        Look::Holder(bytes) => Some(bytes),
        Look::Part(part) => Some(part.bytes),
        _ => None,
    }
}
