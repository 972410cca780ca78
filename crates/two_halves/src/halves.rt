// The memory in two halves, and a collection from one to the other.
ghost use Rattle.std.specs.Prelude.{◌≡◌, ◌-◌, ◌+◌, ◌<◌, ◌≤◌, ◌^◌, slice_index_or};
ghost use Rattle.std.specs.Vec.{vec_len};
ghost use Rattle.std.specs.Borrow.{sem};
ghost use Rattle.two_halves.specs.Halves.{free_in, places_in};
ghost use Rattle.two_halves.specs.Lending.{LendsProcess};
ghost use Rattle.two_halves.specs.Collecting.{CanCollect, Collects, IsBetween, MakesRoom};

use crate::roots::move_roots;
use crate::table::{Proc, Row};
use cheney::{Moving, Stay, scan};
use off_heap_list::{Order, sweep_chain};
use record_move::{move_records, renew};
use word_mem::{Room, Span, WordMem};

/// The first words of a half are never used, so that no object has place 0, and count as used.
pub const UNUSED: u64 = 2;

/// The words of a place of a stack or a queue: the value, and the place that follows.
pub const PLACE_WORDS: u64 = 2;

/// A memory in two halves, of which one is in use, and the processes whose terms stand there.
///
/// The half in use begins at `base`. Its free words are those of `room`: the room starts after the words that are never used,
/// objects lie up to its `top`, and places of stacks and queues, and records, from its `end` up to the end of the half. Holders
/// and funs are in a chain of `linked` objects that begins with `head`, 0 for none. `bins` has the places of the binaries'
/// records, their serials rising, and `funs` those of the funs' records, by name and then arity. `sweeps` counts the
/// collections.
#[derive(Drop)]
pub struct Halves {
    pub mem: WordMem,
    pub base: u64,
    pub room: Room,
    pub procs: Vec<Row>,
    pub head: u64,
    pub linked: u64,
    pub bins: Vec<u64>,
    pub funs: Vec<u64>,
    pub sweeps: u64,
}

impl Halves {
    /// The free words.
    #[inline]
    pub fn free(&self) -> u64
        requires { self.now.room.top ≤ self.now.room.end }
        ensures { result ≡ free_in self.now }
    {
        self.room.end - self.room.top
    }

    /// The process with this row.
    #[inline]
    pub fn process(&self, row: usize) -> &Proc
        requires { row < vec_len self.now.procs }
        ensures { result.now ≡ slice_index_or self.now.procs.items row result.now }
    {
        self.procs[row].row()
    }

    /// The process with this row, to be changed.
    #[inline]
    pub fn process_mut(&mut self, row: usize) -> &mut Proc
        requires { row < vec_len self.old.procs }
        ensures* writes_back { sem 𝓛 (LendsProcess self.entry row result) }
        ensures value { result.now ≡ slice_index_or self.old.procs.items row result.now }
    {
        let process = &mut self.procs[row];
        process.row_mut()
    }

    /// Whether there are `n` free words, where need be after a collection.
    pub fn make_room(&mut self, n: u64) -> bool
        requires can { CanCollect self.old }
        requires counted { self.old.sweeps < 2 ^ 64 - 1 }
        ensures { MakesRoom n self.old self.new result }
    {
        if n <= self.free() {
            return true;
        }
        self.collect();
        n <= self.free()
    }

    /// Moves all that lives to the other half, each object and each record once; what is not reached is left behind, and no
    /// record counts it.
    pub fn collect(&mut self)
        requires can { CanCollect self.old }
        requires counted { self.old.sweeps < 2 ^ 64 - 1 }
        ensures { Collects self.old self.new }
    {
        let half = self.mem.len() / 2;
        let base = half - self.base;
        let end = base + half;
        let places = end - PLACE_WORDS * count_places(&self.procs);
        let mut mv = moving_between(self.base, self.room.top, base + UNUSED, places);
        move_roots(&mut self.mem, &mut mv, &mut self.procs, end);
        scan(&mut self.mem, &mut mv);
        let left = sweep_chain(&mut self.mem, self.head, self.linked, Order::Turned);
        let low = move_records(&mut self.mem, left.first, left.len, places);
        renew(&self.mem, &mut self.bins);
        renew(&self.mem, &mut self.funs);
        self.base = base;
        self.room = Room {
            start: base + UNUSED,
            top: mv.young.top,
            end: low,
        };
        self.head = left.first;
        self.linked = left.len;
        self.sweeps += 1;
    }
}

// How many places stacks and queues have together.
fn count_places(procs: &[Row]) -> u64
    requires { places_in procs.now < 2 ^ 63 }
    ensures { result ≡ places_in procs.now }
{
    let mut sum = 0;
    for p in procs {
        let row = p.row();
        sum += row.depth + row.waiting;
    }
    sum
}

// A collection of what lies between two places to the words between two others, in which all moves.
fn moving_between(old: u64, old_end: u64, start: u64, end: u64) -> Moving
    ensures { IsBetween start end result }
{
    Moving {
        stay: Stay::none(),
        from_space: Span {
            start: old,
            end: old_end,
        },
        mature: Span { start: 0, end: 0 },
        aged: Room {
            start,
            top: start,
            end: start,
        },
        young: Room {
            start,
            top: start,
            end,
        },
    }
}
