// Records in the first free words of a room, which are taken for them.
ghost use Rattle.std.specs.Prelude.{ℕ, ◌+◌, ◌<◌, ◌≤◌, List, replicate};
ghost use Rattle.term_tags.specs.declared.kinds.TheConstants.{ATOMS};
ghost use Rattle.term_words.specs.Object.{IsBinRecord, IsFunRecord};
ghost use Rattle.term_words.specs.Role.{outside};
ghost use Rattle.term_build.specs.Clear.{IsRoom, KeepsClear};

use shared_rec::{fill, write_bin, write_fun};
use word_mem::{Room, WordMem};

/// The record of the funs with this name and arity.
pub fn put_entry(mem: &mut WordMem, room: &mut Room, name: u64, arity: u64) -> u64
    requires place { IsRoom room.old mem.old }
    requires spare { room.old.top + 4096 ≤ room.old.end }
    requires name { name < ATOMS }
    requires arity { arity ≤ 255 }
    ensures place { IsRoom room.new mem.new }
    ensures spare { room.new.top + 2048 ≤ room.new.end }
    ensures kept { KeepsClear room.old room.new mem.old mem.new }
    ensures record_is { IsFunRecord (outside room.new.top room.new.end) mem.new result name arity }
{
    mem.bounded();
    let at = room.top;
    write_fun(mem, at, name, arity);
    room.top = at + 4;
    at
}

/// The record of the shared binary with this number, which has so many equal bytes.
pub fn put_roll(mem: &mut WordMem, room: &mut Room, id: u64, len: u64, byte: u8) -> u64
    requires place { IsRoom room.old mem.old }
    requires spare { room.old.top + 4096 ≤ room.old.end }
    requires few { len ≤ 1024 }
    ensures place { IsRoom room.new mem.new }
    ensures spare { room.new.top + 2048 ≤ room.new.end }
    ensures kept { KeepsClear room.old room.new mem.old mem.new }
    ensures record_is { IsBinRecord (outside room.new.top room.new.end) mem.new result id (replicate len byte) }
{
    mem.bounded();
    let at = room.top;
    write_bin(mem, at, id, len);
    fill(mem, at, byte);
    room.top = at + (4 + (len + 7) / 8);
    at
}
