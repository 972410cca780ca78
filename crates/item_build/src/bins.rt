// Binaries of a written term.
ghost use Rattle.std.specs.Prelude.{◌≡◌, ℕ, suc, ◌+◌, ◌-◌, ◌*◌, ◌/◌, ◌^◌, ◌<◌, ◌≤◌, Bool, true, false, List, [], ◌∷◌, ◌++◌, ◌⊎◌, length, drop, take, slice_index};
ghost use Rattle.plain_term.specs.Measures.{bin_words};
ghost use Rattle.plain_term.specs.Bytes.{shared_bytes};
ghost use Rattle.plain_term.specs.Tree.{Tree};
ghost use Rattle.plain_term.specs.Tree.Tree.{Bin};
ghost use Rattle.term_tags.specs.declared.layouts.TheConstants.{MOST_HEAP_BYTES};
ghost use Rattle.term_words.specs.Object.{BytesLie, IsBinRecord, byte_of};
ghost use Rattle.term_words.specs.Kept.{Keeps};
ghost use Rattle.term_build.specs.Taken.{IsFree, Taken};
ghost use Rattle.term_build.specs.Clear.{IsRoom, Uses};
ghost use Rattle.shared_rec.specs.Record.{WritesRecord, count_in, record_roles};
ghost use Rattle.item_build.specs.Reading.{item_byte, bytes_in, bins_of, far_words_of, AreLed, bytes_after, is_byte as is_byte_item, holder_words as words_of_holder, is_long as is_long_bin, long_bins as long_in};
ghost use Rattle.item_build.specs.Building.{HasRecords, LeavesBut, LeavesRoom, OverBins, RecordedBins, RecordsWait};

use off_heap_list::chain;
use plain_term::Item;
use shared_rec::{HEAD_WORDS, len_of as record_len, write_bin};
use term_build::holder;
use term_tags::MOST_HEAP_BYTES;
use word_mem::{Room, WordMem};

/// The words of a holder.
pub const HOLDER_WORDS: u64 = 6;

/// What shared binaries that are made go on from, and what they leave: how many there were made so far, which is the id of the last
/// one, and the first object of the chain that their holders join, 0 for none.
#[derive(Clone, Copy, Drop)]
pub struct Making {
    pub serial: u64,
    pub head: u64,
}

/// How many binaries of a written term have a record of their own.
pub fn long_bins(code: &[Item]) -> u64
    ensures { result ≡ long_in code.now }
{
    let mut count: u64 = 0;
    let mut i = code.len();
    while i > 0 {
        i -= 1;
        if is_long(code[i]) {
            count += 1;
        }
    }
    count
}

// Whether the item is a binary with a record of its own.
pub fn is_long(item: Item) -> bool
    ensures { result ≡ is_long_bin item }
{
    match item {
        Item::Bin(n) => n > MOST_HEAP_BYTES,
        _ => false,
    }
}

// The words of the holder of a long binary; no other item has one.
pub fn holder_words(item: Item) -> u64
    ensures { result ≡ words_of_holder item }
{
    if is_long(item) { HOLDER_WORDS } else { 0 }
}

// Whether the item is a byte of a binary before it.
pub fn is_byte(item: Item) -> bool
    ensures { result ≡ is_byte_item item }
{
    match item {
        Item::Byte(_) => true,
        _ => false,
    }
}

// The length of a binary.
fn len_of(item: Item) -> u64
    ensures { result ≡ bytes_after item }
{
    match item {
        Item::Bin(n) => n,
        _ => 0,
    }
}

/// Lays the records of all long binaries of a written term at the end of the room, from left to right, with count 0 and the serials
/// after this one, and puts their places at the front of the row; how many there are. The room has the words of their holders too. A
/// memory where records lie elsewhere lays them itself by `put_record`.
pub fn lay_records(
    mem: &mut WordMem,
    room: &mut Room,
    serial: u64,
    row: &mut [u64],
    code: &[Item],
) -> usize
    requires places { IsRoom room.old mem.old }
    requires whole { AreLed code.now }
    requires serials { serial + length code.now < 2 ^ 64 }
    requires words { room.old.top + (6 * long_in code.now + far_words_of code.now) ≤ room.old.end }
    requires enough { length code.now ≤ length row.old }
    ensures laid { (c : ℕ → ℕ → Bool) (shared : List (List ℕ)) → IsFree c room.old.top room.old.end → length shared ≡ serial
        → RecordedBins c (shared ++ bins_of code.now) room.old room.new mem.old mem.new row.new serial (long_in code.now) }
    ensures leaves { LeavesRoom room.old room.new mem.old mem.new }
    ensures count { result ≡ long_in code.now }
    ensures front { room.new.top ≡ room.old.top }
    ensures back { room.new.end + far_words_of code.now ≡ room.old.end }
    ensures row { length row.new ≡ length row.old }
{
    let mut count = 0;
    for i in 0..code.len() {
        if is_long(code[i]) {
            lay_record(
                mem,
                room,
                serial + count as u64,
                len_of(code[i]),
                &code[i + 1..],
            );
            row[count] = room.end;
            count += 1;
        }
    }
    count
}

// A record of these bytes with count 0 and the next serial, in the last words of the room.
fn lay_record(mem: &mut WordMem, room: &mut Room, serial: u64, n: u64, bytes: &[Item])
    requires places { IsRoom room.old mem.old }
    requires inside { n ≤ length bytes.now }
    requires serials { serial + 1 < 2 ^ 64 }
    requires words { room.old.top + (4 + bin_words n) < room.old.end }
    ensures laid { (c : ℕ → ℕ → Bool) (shared : List (List ℕ)) → IsFree c room.old.top room.old.end → shared_bytes shared (serial + 1) ≡ bytes_in n bytes.now
        → RecordedBins c shared room.old room.new mem.old mem.new (room.new.end ∷ []) serial 1 }
    ensures room { room.new ≡ record { start = room.old.start; top = room.old.top; end = room.old.end - (4 + bin_words n) } }
    ensures leaves { LeavesRoom room.old room.new mem.old mem.new }
{
    mem.bounded();
    let rec = room.end - (HEAD_WORDS + (n + 7) / 8);
    put_record(mem, rec, serial + 1, n, bytes);
    room.end = rec;
}

// Makes the holders of the first n records that the row tells, side by side at the front of the room.
pub fn lay_holders(mem: &mut WordMem, room: &mut Room, making: &mut Making, row: &[u64], n: usize)
    requires places { IsRoom room.old mem.old }
    requires somewhere { 0 < room.old.top }
    requires few { n ≤ length row.now }
    requires serials { making.old.serial + n < 2 ^ 64 }
    requires words { room.old.top + 6 * n ≤ room.old.end }
    requires records { HasRecords room.old mem.old row.now making.old.serial n }
    ensures laid { (c : ℕ → ℕ → Bool) (shared : List (List ℕ)) → IsFree c room.old.top room.old.end → RecordsWait c shared mem.old row.now making.old.serial n
        → OverBins c shared room.old.top room.new.top mem.old mem.new row.now making.old making.new n }
    ensures leaves { LeavesBut row.now n room.old room.new mem.old mem.new }
    ensures front { room.new.top ≡ room.old.top + 6 * n }
    ensures serial { making.new.serial ≡ making.old.serial + n }
{
    for i in 0..n {
        lay_holder(mem, room, making, row[i]);
    }
}

// Makes the holder of one record, and chains it.
fn lay_holder(mem: &mut WordMem, room: &mut Room, making: &mut Making, rec: u64)
    requires places { IsRoom room.old mem.old }
    requires somewhere { 0 < room.old.top }
    requires serials { making.old.serial + 1 < 2 ^ 64 }
    requires words { room.old.top + 6 ≤ room.old.end }
    requires records { HasRecords room.old mem.old (rec ∷ []) making.old.serial 1 }
    ensures laid { (c : ℕ → ℕ → Bool) (shared : List (List ℕ)) → IsFree c room.old.top room.old.end
        → RecordsWait c shared mem.old (rec ∷ []) making.old.serial 1
        → OverBins c shared room.old.top room.new.top mem.old mem.new (rec ∷ []) making.old making.new 1 }
    ensures room { room.new ≡ record { start = room.old.start; top = room.old.top + 6; end = room.old.end } }
    ensures serial { making.new.serial ≡ making.old.serial + 1 }
    ensures same_len { length mem.new ≡ length mem.old }
    ensures others { (q : ℕ) → (q < room.old.top) ⊎ (room.old.top + 6 ≤ q) → (q ≡ rec + 2 → ⊥) → slice_index mem.new q ≡ slice_index mem.old q }
{
    making.serial += 1;
    let place = room.top;
    let n = record_len(mem, rec);
    holder(mem, room, rec, n, 0);
    making.head = chain(mem, making.head, place);
}

/// Writes the record of a binary of `n` bytes, which these items are, with this serial and count 0: four words at place `at` and
/// behind them the bytes, eight in each word. Nobody may use these words; who has the memory says where they lie.
pub fn put_record(mem: &mut WordMem, at: u64, serial: u64, n: u64, bytes: &[Item])
    requires inside { n ≤ length bytes.now }
    requires places { at + (4 + bin_words n) ≤ length mem.old }
    ensures writes { WritesRecord at (at + (4 + bin_words n)) mem.old mem.new }
    ensures made { (c d : ℕ → ℕ → Bool) → Taken record_roles c d at (4 + bin_words n) → IsBinRecord d mem.new at serial (bytes_in n bytes.now) }
    ensures count { count_in mem.new at ≡ 0 }
{
    mem.bounded();
    write_bin(mem, at, serial, n);
    put_bytes(mem, at + HEAD_WORDS, n, bytes);
}

// Writes n bytes, which these items are, eight in each word from a place on; unused bytes of the last word are 0.
fn put_bytes(mem: &mut WordMem, at: u64, n: u64, bytes: &[Item])
    requires inside { n ≤ length bytes.now }
    requires places { at + bin_words n ≤ length mem.old }
    ensures writes { WritesRecord at (at + bin_words n) mem.old mem.new }
    ensures bytes { BytesLie mem.new at (bytes_in n bytes.now) }
{
    mem.bounded();
    for j in 0..(n + 7) / 8 {
        mem.set(at + j, word_at(bytes, n, j * 8));
    }
}

// Eight of n bytes as a word, from one on, the lowest byte first; past the last each is 0.
fn word_at(bytes: &[Item], n: u64, from: u64) -> u64
    requires inside { n ≤ length bytes.now }
    requires within { from ≤ n }
    ensures { (i k : ℕ) → k < 8 → i ≡ from + k → byte_of result k ≡ slice_index (bytes_in n bytes.now) i }
{
    let _len = bytes.len();
    u64::from_le_bytes([
        byte_at(bytes, n, from),
        byte_at(bytes, n, from + 1),
        byte_at(bytes, n, from + 2),
        byte_at(bytes, n, from + 3),
        byte_at(bytes, n, from + 4),
        byte_at(bytes, n, from + 5),
        byte_at(bytes, n, from + 6),
        byte_at(bytes, n, from + 7),
    ])
}

// Byte i of n bytes, 0 past them.
fn byte_at(bytes: &[Item], n: u64, i: u64) -> u8
    requires inside { n ≤ length bytes.now }
    ensures { result ≡ slice_index (bytes_in n bytes.now) i }
{
    if i < n { byte(bytes[i as usize]) } else { 0 }
}

// The byte that an item is.
fn byte(item: Item) -> u8
    ensures { result ≡ item_byte item }
{
    match item {
        Item::Byte(b) => b,
        _ => 0,
    }
}

// The first n bytes, at most 64, and 0 behind them.
pub fn first_bytes(bytes: &[Item], n: usize) -> [u8; 64]
    requires few { n ≤ MOST_HEAP_BYTES }
    requires inside { n ≤ length bytes.now }
    ensures { take n result ≡ bytes_in n bytes.now }
{
    let mut row = [0; 64];
    for i in 0..n {
        row[i] = byte(bytes[i]);
    }
    row
}
