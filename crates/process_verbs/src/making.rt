// The verbs that build a term of registers' terms.
ghost use Rattle.std.specs.Prelude.{◌≡◌, ℕ, ◌+◌, ◌*◌, ◌<◌, ◌≤◌, ◌/◌, List, Some, length};
ghost use Rattle.plain_machine.specs.State.{State, process_of, register};
ghost use Rattle.plain_machine.specs.State.{Process as Live};
ghost use Rattle.plain_machine.specs.Tightness.{key_count, repeat_words as words_by};
ghost use Rattle.plain_machine.specs.declared.limits.TheConstants.{MOST_FILL};
ghost use Rattle.plain_term.specs.Measures.{bin_words};
ghost use Rattle.script_grammar.specs.declared.command.Command.TheVariants.{Process};
ghost use Rattle.script_grammar.specs.declared.command.Pick.TheVariants as pick;
ghost use Rattle.script_grammar.specs.declared.command.Verb.TheVariants as verb;
ghost use Rattle.script_grammar.specs.Names.{IsRegister};
ghost use Rattle.space_api.specs.Calls.{most_calls};
ghost use Rattle.heaps_api.specs.declared.wanted.Want.TheVariants.{Words};
ghost use Rattle.process_verbs.specs.Verbs.{Holds, Sits, VerbsStand};
ghost use Rattle.process_verbs.specs.Doing.{Asks, AsksUnless, Does, DoesBy, refusal_of_put, want_of_fill};

use crate::verbs::Verbs;
use atom_names::AtomNames;
use heaps_api::{Heaps, Make, Want};
use plain_machine::{MOST_BYTE, MOST_FILL, MOST_PLACES, Refusal, Reg, Shape};
use space_api::Seat;
use term_tags::MOST_HEAP_BYTES;
use term_verbs::{PutStop, has_part, place_in};

impl<H: Heaps> Verbs<H> {
    /// Puts a tuple or a list of `n` times a register's term in a register.
    pub fn repeat(
        &mut self,
        seat: Seat,
        r: Reg,
        shape: Shape,
        n: u64,
        s: Reg,
    ) -> Result<(), Refusal>
        requires holds { Holds H.meaning self.old }
        requires calls { self.old.calls < most_calls }
        requires sits { Sits H.meaning self.old seat }
        requires register { IsRegister r }
        requires other { IsRegister s }
        ensures does { Does H.meaning (Process seat.pid (verb.Repeat r shape n s)) self.old self.new result }
        ensures asks { AsksUnless H.meaning (Words seat.row (words_by shape n) 0) self.old self.new result }
    {
        if n > MOST_PLACES {
            return Err(Refusal::BadArg);
        }
        self.make(seat, r, Make::Same(shape, n, s))
    }

    /// Puts a reference that the process has not made before in a register.
    pub fn make_ref(&mut self, seat: Seat, r: Reg) -> Result<(), Refusal>
        requires holds { Holds H.meaning self.old }
        requires calls { self.old.calls < most_calls }
        requires sits { Sits H.meaning self.old seat }
        requires register { IsRegister r }
        ensures does { Does H.meaning (Process seat.pid (verb.Ref r)) self.old self.new result }
        ensures asks { Asks H.meaning (Words seat.row 3 0) self.old self.new result }
    {
        self.make(seat, r, Make::Ref)
    }

    /// Puts the `len` bytes from byte `offset` on of a register's binary in a register.
    pub fn cut(&mut self, seat: Seat, r: Reg, s: Reg, offset: u64, len: u64) -> Result<(), Refusal>
        requires holds { Holds H.meaning self.old }
        requires calls { self.old.calls < most_calls }
        requires sits { Sits H.meaning self.old seat }
        requires register { IsRegister r }
        requires other { IsRegister s }
        ensures does { Does H.meaning (Process seat.pid (verb.Choose r s (pick.Part offset len))) self.old self.new result }
        ensures asks { AsksUnless H.meaning (Words seat.row 5 0) self.old self.new result }
    {
        if !has_part(self.heaps.mem(), self.word(seat, s), offset, len) {
            return Err(Refusal::BadArg);
        }
        self.make(seat, r, Make::Part(s, offset, len))
    }

    /// Puts a register's map with a pair more in a register.
    pub fn map_put(
        &mut self,
        names: &AtomNames,
        seat: Seat,
        r: Reg,
        s: Reg,
        k: Reg,
        v: Reg,
    ) -> Result<(), Refusal>
        requires holds { Holds H.meaning self.old }
        requires calls { self.old.calls < most_calls }
        requires sits { Sits H.meaning self.old seat }
        requires register { IsRegister r }
        requires map { IsRegister s }
        requires key { IsRegister k }
        requires value { IsRegister v }
        requires named { self.old.named ≤ length names.now }
        ensures does { DoesBy H.meaning names.now (Process seat.pid (verb.MapPut r s k v)) self.old self.new result }
        ensures asks { (state : State) (q : Live) → VerbsStand H.meaning self.old state → process_of seat.pid state ≡ Some q
            → AsksUnless H.meaning (Words seat.row (6 + 2 * key_count (register s.0 q)) 0) self.old self.new result }
    {
        let map = self.word(seat, s);
        let key = self.word(seat, k);
        match place_in(self.heaps.mem(), names, map, key) {
            Ok(place) => self.make(seat, r, Make::Pair(s, place, k, v)),
            Err(stop) => Err(refusal_of_put(stop)),
        }
    }

    /// Puts a binary of `len` bytes that are all `byte` in a register.
    pub fn fill(&mut self, seat: Seat, r: Reg, len: u64, byte: u64) -> Result<(), Refusal>
        requires holds { Holds H.meaning self.old }
        requires calls { self.old.calls < most_calls }
        requires sits { Sits H.meaning self.old seat }
        requires register { IsRegister r }
        ensures does { Does H.meaning (Process seat.pid (verb.Fill r len byte)) self.old self.new result }
        ensures asks { AsksUnless H.meaning (want_of_fill seat.row len) self.old self.new result }
    {
        if len > MOST_FILL {
            return Err(Refusal::BadArg);
        }
        if byte > MOST_BYTE {
            return Err(Refusal::BadArg);
        }
        if len <= MOST_HEAP_BYTES {
            return self.make(seat, r, Make::Bytes(len, byte as u8));
        }
        self.fill_long(seat, r, len, byte as u8)
    }

    // A binary of more than 64 bytes stands in a record with the next serial.
    fn fill_long(&mut self, seat: Seat, r: Reg, len: u64, byte: u8) -> Result<(), Refusal>
        requires holds { Holds H.meaning self.old }
        requires calls { self.old.calls < most_calls }
        requires sits { Sits H.meaning self.old seat }
        requires register { IsRegister r }
        requires long { 64 < len }
        requires most { len ≤ MOST_FILL }
        ensures does { Does H.meaning (Process seat.pid (verb.Fill r len byte)) self.old self.new result }
        ensures asks { AsksUnless H.meaning (want_of_fill seat.row len) self.old self.new result }
    {
        self.ask(Want::Words(seat.row, 6, 4 + (len + 7) / 8))?;
        self.serials += 1;
        self.heaps.gain_bin(seat.row, r, self.serials, len, byte);
        self.swept = false;
        Ok(())
    }
}

// The refusal of a pair that is not put.
fn refusal_of_put(stop: PutStop) -> Refusal
    ensures { result ≡ refusal_of_put stop }
{
    match stop {
        PutStop::NoMap => Refusal::BadArg,
        PutStop::Big => Refusal::Big,
        PutStop::Full => Refusal::MapSize,
    }
}
