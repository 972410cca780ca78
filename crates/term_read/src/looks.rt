// What a word is, and where the words of its parts lie.
ghost use Rattle.std.specs.Prelude.{◌≡◌, ◌/◌, ◌%◌, slice_index, if◌then◌else◌};
ghost use Rattle.term_words.specs.Stands.{IsTerm};
ghost use Rattle.term_tags.specs.declared.layouts.TheConstants.{POS_BIG, NEG_BIG, FUN, SUB_BIN};
ghost use Rattle.term_read.specs.Data.{HasFirst};
ghost use Rattle.term_read.specs.Look.{Sees, LiesInMemory};

use crate::object::object_at;
use term_tags::{HEAP_BIN, HOLDER, Kind, Object, arity_of, kind_of, object_of, place_of};
use word_mem::WordMem;

/// `len` words side by side from place `first` on, each of a part.
#[derive(Clone, Copy)]
pub struct Row {
    pub first: u64,
    pub len: u64,
}

/// `len` pairs: the words of the keys from one place on, those of the values from another.
#[derive(Clone, Copy)]
pub struct PairRows {
    pub keys: u64,
    pub values: u64,
    pub len: u64,
}

/// The name, arity and creating process of a fun, by their numbers, and its environment.
#[derive(Clone, Copy)]
pub struct FunParts {
    pub name: u64,
    pub arity: u64,
    pub creator: u64,
    pub env: Row,
}

/// The sign and the digits of 64 bits of a big integer's magnitude; one of a single digit has a zero in `high`.
#[derive(Clone, Copy)]
pub struct Digits {
    pub negative: bool,
    pub low: u64,
    pub high: u64,
}

/// `len` bytes from byte `start` of the words from place `first` on.
#[derive(Clone, Copy)]
pub struct Bytes {
    pub first: u64,
    pub start: u64,
    pub len: u64,
}

/// A part of a binary: the word of its original, and its own bytes.
#[derive(Clone, Copy)]
pub struct PartBytes {
    pub base: u64,
    pub bytes: Bytes,
}

/// What a word is. Places are indexes of words: a cons has that of its head, before its tail.
#[derive(Clone, Copy)]
pub enum Look {
    Small(i64),
    Big(Digits),
    Atom(u64),
    Pid(u64),
    /// The process number and the number in that process.
    Ref(u64, u64),
    Nil,
    Cons(u64),
    Tuple(Row),
    Map(PairRows),
    Fun(FunParts),
    /// The bytes of a binary on the heap.
    Heap(Bytes),
    /// The bytes of a binary in a record.
    Holder(Bytes),
    Part(PartBytes),
}

/// What the word is, whatever tree it stands for.
pub fn look_at(mem: &WordMem, w: u64) -> Look
    requires { IsTerm mem.now w }
    ensures tree { Sees mem.now w result }
    ensures places { LiesInMemory mem.now result }
{
    mem.bounded();
    match kind_of(w) {
        Kind::Small(i) => Look::Small(i),
        Kind::Atom(k) => Look::Atom(k),
        Kind::Pid(n) => Look::Pid(n),
        Kind::Nil => Look::Nil,
        Kind::ListAt(place) => Look::Cons(place),
        Kind::BoxedAt(place) => object_look(mem, w, place),
        Kind::Header(_, _) | Kind::Other => unreachable!(),
    }
}

// What a boxed pointer is, by the header that it leads to.
fn object_look(mem: &WordMem, w: u64, place: u64) -> Look
    requires term { IsTerm mem.now w }
    requires pointer { (w % 4 ≡ 2) × (place ≡ w / 4) }
    ensures { Sees mem.now w result }
{
    mem.bounded();
    let header = mem.get(place);
    let Some(object) = object_of(header) else {
        unreachable!()
    };
    match object {
        Object::Tuple => Look::Tuple(Row {
            first: place + 1,
            len: arity_of(header),
        }),
        Object::PosBig => big_look(mem, w, place, false),
        Object::NegBig => big_look(mem, w, place, true),
        Object::Ref => Look::Ref(mem.get(place + 1), mem.get(place + 2)),
        Object::Fun => fun_look(mem, w, place),
        Object::Holder => Look::Holder(Bytes {
            first: mem.get(place + 3) + 4,
            start: 0,
            len: mem.get(place + 1),
        }),
        Object::HeapBin => Look::Heap(Bytes {
            first: place + 2,
            start: 0,
            len: mem.get(place + 1),
        }),
        Object::SubBin => part_look(mem, w, place),
        Object::Map => Look::Map(PairRows {
            keys: place_of(mem.get(place + 2)) + 1,
            values: place + 3,
            len: mem.get(place + 1),
        }),
    }
}

// A big integer of one digit or two.
fn big_look(mem: &WordMem, w: u64, place: u64, negative: bool) -> Look
    requires term { IsTerm mem.now w }
    requires pointer { (w % 4 ≡ 2) × (place ≡ w / 4) }
    requires subtag { slice_index mem.now place / 4 % 16 ≡ (if negative then NEG_BIG else POS_BIG) }
    ensures { Sees mem.now w result }
{
    mem.bounded();
    let low = mem.get(place + 1);
    if arity_of(mem.get(place)) == 2 {
        let high = mem.get(place + 2);
        Look::Big(Digits {
            negative,
            low,
            high,
        })
    } else {
        Look::Big(Digits {
            negative,
            low,
            high: 0,
        })
    }
}

// A fun, with its name from the record that it names.
fn fun_look(mem: &WordMem, w: u64, place: u64) -> Look
    requires term { IsTerm mem.now w }
    requires pointer { (w % 4 ≡ 2) × (place ≡ w / 4) }
    requires subtag { slice_index mem.now place / 4 % 16 ≡ FUN }
    ensures { Sees mem.now w result }
{
    mem.bounded();
    let record = mem.get(place + 1);
    Look::Fun(FunParts {
        name: mem.get(record + 1) / 256,
        arity: mem.get(place + 3),
        creator: mem.get(place + 5) / 16,
        env: Row {
            first: place + 6,
            len: mem.get(place + 4),
        },
    })
}

// A part of a binary on the heap or in a record.
fn part_look(mem: &WordMem, w: u64, place: u64) -> Look
    requires term { IsTerm mem.now w }
    requires pointer { (w % 4 ≡ 2) × (place ≡ w / 4) }
    requires subtag { slice_index mem.now place / 4 % 16 ≡ SUB_BIN }
    ensures { Sees mem.now w result }
{
    mem.bounded();
    let base = mem.get(place + 4);
    let Some(first) = first_word(mem, base) else {
        unreachable!()
    };
    Look::Part(PartBytes {
        base,
        bytes: Bytes {
            first,
            start: mem.get(place + 2),
            len: mem.get(place + 1),
        },
    })
}

// The place of the first word of bytes of a binary that is no part of another.
fn first_word(mem: &WordMem, w: u64) -> Option<u64>
    requires { IsTerm mem.now w }
    ensures { HasFirst mem.now w result }
{
    mem.bounded();
    if let Some(place) = object_at(mem, w, HEAP_BIN) {
        return Some(place + 2);
    }
    let place = object_at(mem, w, HOLDER)?;
    Some(mem.get(place + 3) + 4)
}
