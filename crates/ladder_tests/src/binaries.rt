// Binaries: of bytes on the heap, of a shared record, and parts of both.
ghost use Rattle.std.specs.Prelude.{◌≡◌, ◌+◌, ◌≤◌, true, IfSome};
ghost use Rattle.plain_term.specs.Tree.Tree.{Shared};
ghost use Rattle.term_build.specs.Clear.{IsRoom, Clear, KeepsClear};
ghost use Rattle.ladder_tests.specs.Bench.{IsRoll, Makes, shared_of};

use crate::records::put_roll;
use atom_names::AtomNames;
use term_build::{heap_bin, holder, sub_bin};
use word_mem::{Room, WordMem};

/// The binary of these bytes.
pub fn bytes_of(
    mem: &mut WordMem,
    room: &mut Room,
    names: &AtomNames,
    rolls: &[(u64, u8)],
    bytes: &[u8],
) -> Option<u64>
    requires place { IsRoom room.old mem.old }
    requires spare { room.old.top + 4096 ≤ room.old.end }
    ensures { Makes (shared_of rolls.now) names.now room.old room.new mem.old mem.new result }
{
    if bytes.len() > 64 {
        return None;
    }
    Some(heap_bin(mem, room, bytes))
}

/// The bytes of these from an offset, so many.
pub fn part_of(
    mem: &mut WordMem,
    room: &mut Room,
    names: &AtomNames,
    rolls: &[(u64, u8)],
    bytes: &[u8],
    off: u64,
    len: u64,
) -> Option<u64>
    requires place { IsRoom room.old mem.old }
    requires spare { room.old.top + 4096 ≤ room.old.end }
    ensures { Makes (shared_of rolls.now) names.now room.old room.new mem.old mem.new result }
{
    if bytes.len() > 64 {
        return None;
    }
    if !is_part(off, len, bytes.len() as u64) {
        return None;
    }
    let base = heap_bin(mem, room, bytes);
    Some(sub_bin(mem, room, base, off, len))
}

/// The shared binary with this number.
pub fn holder_of(
    mem: &mut WordMem,
    room: &mut Room,
    names: &AtomNames,
    rolls: &[(u64, u8)],
    id: u64,
) -> Option<u64>
    requires place { IsRoom room.old mem.old }
    requires spare { room.old.top + 4096 ≤ room.old.end }
    ensures { Makes (shared_of rolls.now) names.now room.old room.new mem.old mem.new result }
{
    let (len, byte) = roll_at(rolls, id)?;
    Some(hold(mem, room, rolls, id, len, byte))
}

/// Of a shared binary the bytes from an offset, so many.
pub fn piece_of(
    mem: &mut WordMem,
    room: &mut Room,
    names: &AtomNames,
    rolls: &[(u64, u8)],
    id: u64,
    off: u64,
    len: u64,
) -> Option<u64>
    requires place { IsRoom room.old mem.old }
    requires spare { room.old.top + 4096 ≤ room.old.end }
    ensures { Makes (shared_of rolls.now) names.now room.old room.new mem.old mem.new result }
{
    let (whole, byte) = roll_at(rolls, id)?;
    if !is_part(off, len, whole) {
        return None;
    }
    let base = hold(mem, room, rolls, id, whole, byte);
    Some(sub_bin(mem, room, base, off, len))
}

// Whether so many bytes from an offset are some of a whole.
fn is_part(off: u64, len: u64, whole: u64) -> bool
    ensures { result ≡ true → off + len ≤ whole }
{
    off <= whole && len <= whole - off
}

// The length of a shared binary, and its byte.
fn roll_at(rolls: &[(u64, u8)], id: u64) -> Option<(u64, u8)>
    ensures { IfSome result (λ p. IsRoll (shared_of rolls.now) id p.0 p.1) }
{
    if id == 0 {
        return None;
    }
    if id > rolls.len() as u64 {
        return None;
    }
    let (len, byte) = rolls[id as usize - 1];
    if len > 1_024 {
        return None;
    }
    Some((len, byte))
}

// A holder, and its record before it.
fn hold(mem: &mut WordMem, room: &mut Room, rolls: &[(u64, u8)], id: u64, len: u64, byte: u8) -> u64
    requires place { IsRoom room.old mem.old }
    requires spare { room.old.top + 4096 ≤ room.old.end }
    requires roll { IsRoll (shared_of rolls.now) id len byte }
    ensures place { IsRoom room.new mem.new }
    ensures spare { room.new.top + 1024 ≤ room.new.end }
    ensures kept { KeepsClear room.old room.new mem.old mem.new }
    ensures made { Clear room.new (shared_of rolls.now) mem.new result (Shared id) }
{
    let rec = put_roll(mem, room, id, len, byte);
    holder(mem, room, rec, len, 0)
}
