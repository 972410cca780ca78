// Binaries in records, and funs: a record, where none is there, an object that names it, and its place in the chain.
ghost use Rattle.std.specs.Prelude.{◌≡◌, ℕ, ◌+◌, ◌-◌, ◌*◌, ◌<◌, ◌≤◌, Bool, List, [], ◌∷◌, ◌++◌, length, replicate};
ghost use Rattle.std.specs.Vec.{vec_len, vec_capacity};
ghost use Rattle.plain_term.specs.Measures.{bin_words};
ghost use Rattle.plain_term.specs.Tree.{Trees};
ghost use Rattle.plain_term.specs.Tree.Tree.{Fun, Shared};
ghost use Rattle.plain_machine.specs.State.{Process};
ghost use Rattle.term_tags.specs.declared.kinds.TheConstants.{ATOMS, PIDS};
ghost use Rattle.term_tags.specs.declared.layouts.TheConstants.{MOST_ENV};
ghost use Rattle.term_words.specs.Stands.{AllStand};
ghost use Rattle.shared_rec.specs.Record.{count_in};
ghost use Rattle.two_halves.specs.Halves.{HalvesStand, IsLaid, free_in};
ghost use Rattle.two_halves.specs.Adding.{Adds, Gets, HasBin, HasFun, IsNamedIn, IsSerial};

use crate::halves::Halves;
use off_heap_list::chain;
use plain_machine::RECORD_COST;
use record_tables::{fun_at, spot_of};
use shared_rec::{fill, write_bin, write_fun};
use term_build::{fun_thing, holder};

impl Halves {
    /// Makes a binary of `len` bytes that are all `byte`: a record with this serial, which is the next one, and a holder.
    pub fn add_bin(&mut self, serial: u64, len: u64, byte: u8) -> u64
        requires laid { IsLaid self.old }
        requires next { IsSerial self.old serial }
        requires words { 10 + bin_words len ≤ free_in self.old }
        requires table { vec_len self.old.bins < vec_capacity self.old.bins }
        ensures adds { Adds self.old self.new }
        ensures gets { (named : ℕ) (shared : List (List ℕ)) (qs : List Process) → HalvesStand named self.old shared qs → serial ≡ length shared + 1
            → Gets named self.new (shared ++ replicate len byte ∷ []) qs result (Shared serial) }
        ensures uses { free_in self.old ≤ free_in self.new + (10 + bin_words len) }
    {
        self.mem.bounded();
        let at = self.put_bin(serial, len, byte);
        let object = self.room.top;
        let w = holder(&mut self.mem, &mut self.room, at, len, 0);
        self.head = chain(&mut self.mem, self.head, object);
        self.linked += 1;
        w
    }

    // Puts the record of a binary of equal bytes below all places and records.
    fn put_bin(&mut self, serial: u64, len: u64, byte: u8) -> u64
        requires laid { IsLaid self.old }
        requires next { IsSerial self.old serial }
        requires words { 10 + bin_words len ≤ free_in self.old }
        requires table { vec_len self.old.bins < vec_capacity self.old.bins }
        ensures adds { Adds self.old self.new }
        ensures has { (named : ℕ) (shared : List (List ℕ)) (qs : List Process) → HalvesStand named self.old shared qs → serial ≡ length shared + 1
            → HasBin named self.new (shared ++ replicate len byte ∷ []) qs result serial (replicate len byte) }
        ensures top { self.new.room.top ≡ self.old.room.top }
        ensures low { self.new.room.end ≡ self.old.room.end - (4 + bin_words len) }
        ensures linked { self.new.linked ≡ self.old.linked }
        ensures zero { count_in self.new.mem result ≡ 0 }
        ensures place { result ≡ self.new.room.end }
    {
        self.mem.bounded();
        let at = self.room.end - (RECORD_COST + (len + 7) / 8);
        write_bin(&mut self.mem, at, serial, len);
        fill(&mut self.mem, at, byte);
        self.bins.push_reserved(at);
        self.room.end = at;
        at
    }

    /// Makes a fun of this name and arity, which the process with number `creator` made, with these words as its environment. Its
    /// record is that of the name and arity, which is made where there is none.
    pub fn add_fun(&mut self, name: u64, arity: u64, creator: u64, env: &[u64]) -> u64
        requires laid { IsLaid self.old }
        requires named { IsNamedIn self.old name }
        requires words { 10 + length env.now ≤ free_in self.old }
        requires table { vec_len self.old.funs < vec_capacity self.old.funs }
        requires name { name < ATOMS }
        requires arity { arity ≤ 255 }
        requires creator { creator < PIDS }
        requires few { length env.now ≤ MOST_ENV }
        ensures adds { Adds self.old self.new }
        ensures gets { (named : ℕ) (shared : List (List ℕ)) (qs : List Process) (x : HalvesStand named self.old shared qs) (ts : Trees)
            → name < named → AllStand x.test shared self.old.mem env.now ts → Gets named self.new shared qs result (Fun name arity creator ts) }
        ensures uses { free_in self.old ≤ free_in self.new + (10 + length env.now) }
    {
        self.mem.bounded();
        let rec = self.fun_record(name, arity);
        let object = self.room.top;
        let w = fun_thing(&mut self.mem, &mut self.room, rec, 0, arity, creator, env);
        self.head = chain(&mut self.mem, self.head, object);
        self.linked += 1;
        w
    }

    // The place of the record of the funs with this name and arity; a new one lies below all places and records.
    fn fun_record(&mut self, name: u64, arity: u64) -> u64
        requires laid { IsLaid self.old }
        requires named { IsNamedIn self.old name }
        requires words { 10 ≤ free_in self.old }
        requires table { vec_len self.old.funs < vec_capacity self.old.funs }
        requires name { name < ATOMS }
        requires arity { arity ≤ 255 }
        ensures adds { Adds self.old self.new }
        ensures has { (named : ℕ) (shared : List (List ℕ)) (qs : List Process) (x : HalvesStand named self.old shared qs)
            → name < named → HasFun named self.old self.new shared qs result name arity x.test }
        ensures top { self.new.room.top ≡ self.old.room.top }
        ensures low { self.old.room.end ≤ self.new.room.end + 4 }
        ensures linked { self.new.linked ≡ self.old.linked }
    {
        self.mem.bounded();
        let code = name * 256 + arity;
        let funs = self.funs.as_slice();
        let i = spot_of(&self.mem, funs, code);
        if let Some(at) = fun_at(&self.mem, funs, i, code) {
            return at;
        }
        let at = self.room.end - RECORD_COST;
        write_fun(&mut self.mem, at, name, arity);
        let _ = self.funs.insert(i, at);
        self.room.end = at;
        at
    }
}
