// The parts of terms of each kind, in a memory laid out by hand.
ghost use Rattle.std.specs.Prelude.{◌≡◌, length};
ghost use Rattle.lower_tests.specs.Sample.{sample};

use crate::words::{Trial, holds};
use term_read::{
    Look, byte_at, byte_len, element, fun_env, hd, look_at, map_key, map_len, map_value, tl,
};
use word_mem::WordMem;

// An object of each kind, after the place of its first word; the word of place p is p * 4 + 1 or + 2.
const WORDS: [u64; 51] = [
    0,
    // 1: the list [1]
    31,
    59,
    // 3: a tuple of an atom and the list
    128,
    331,
    5,
    // 6: the bytes 7, 8, 9 on the heap
    164,
    3,
    591879,
    // 9: the record of the shared bytes 1, 2
    86,
    1,
    1,
    2,
    513,
    // 14: its holder
    352,
    2,
    0,
    9,
    0,
    0,
    // 20: byte 1 of the holder's bytes
    296,
    1,
    1,
    0,
    58,
    // 25: the record of a fun
    71,
    770,
    1,
    0,
    // 29: a fun with an environment of one place
    404,
    25,
    0,
    2,
    1,
    19,
    79,
    // 36: the keys of a map, and 38: the map of an atom to 9
    64,
    75,
    252,
    1,
    146,
    159,
    // 42: a reference
    144,
    1,
    7,
    // 45: 2^63, and 47: the empty tuple
    72,
    9223372036854775808,
    0,
    // 48: 2^64
    136,
    0,
    1,
];

// Lays the words.
fn lay(mem: &mut WordMem, words: &[u64])
    requires { length mem.old ≡ length words.now }
    ensures { mem.new ≡ words.now }
{
    for i in 0..words.len() {
        mem.set(i as u64, words[i]);
    }
}

fn lists_and_tuples(mem: &WordMem) -> bool
    requires { mem.now ≡ sample }
{
    hd(mem, 5) == Some(31)
        && tl(mem, 5) == Some(59)
        && hd(mem, 190).is_none()
        && element(mem, 14, 2) == Some(5)
        && element(mem, 14, 0).is_none()
        && element(mem, 190, 1).is_none()
}

fn funs_and_maps(mem: &WordMem) -> bool
    requires { mem.now ≡ sample }
{
    fun_env(mem, 118, 1) == Some(79)
        && map_len(mem, 154) == Some(1)
        && map_key(mem, 154, 0) == Some(75)
        && map_value(mem, 154, 0) == Some(159)
        && map_len(mem, 182).is_none()
        && map_len(mem, 194).is_none()
}

fn bytes_of_binaries(mem: &WordMem) -> bool
    requires { mem.now ≡ sample }
{
    byte_len(mem, 26) == Some(3)
        && byte_at(mem, 26, 2) == Some(9)
        && byte_at(mem, 58, 1) == Some(2)
        && byte_at(mem, 82, 0) == Some(2)
        && byte_len(mem, 170).is_none()
}

fn looks(mem: &WordMem) -> bool
    requires { mem.now ≡ sample }
{
    match (look_at(mem, 118), look_at(mem, 82), look_at(mem, 194)) {
        (Look::Fun(f), Look::Part(p), Look::Big(d)) => {
            f.name == 3
                && f.creator == 1
                && f.env.first == 35
                && p.base == 58
                && p.bytes.start == 1
                && d.high == 1
        }
        _ => false,
    }
}

pub(crate) fn parts_are_read(mem: &mut WordMem) -> bool {
    if mem.len() != WORDS.len() as u64 {
        return false;
    }
    lay(mem, &WORDS);
    lists_and_tuples(mem) && funs_and_maps(mem) && bytes_of_binaries(mem) && looks(mem)
}

#[test]
fn parts_of_each_kind_are_read(rt: HostRuntime) {
    assert!(rt; holds(rt.alloc(), WORDS.len() as u64, Trial::Reads));
}
