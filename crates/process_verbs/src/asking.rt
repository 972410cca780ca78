// What verbs share: room is looked for, a term is built and a word put into a register.
ghost use Rattle.std.specs.Prelude.{◌≡◌, ℕ, ◌<◌, ◌≤◌, ◌^◌, length};
ghost use Rattle.plain_machine.specs.State.{State};
ghost use Rattle.script_grammar.specs.Names.{IsRegister};
ghost use Rattle.space_api.specs.Calls.{most_calls};
ghost use Rattle.heaps_api.specs.Changing.{process_at};
ghost use Rattle.heaps_api.specs.Wanted.{HasWantedRow, words_of_want};
ghost use Rattle.process_verbs.specs.Verbs.{Holds, Sits, VerbsStand};
ghost use Rattle.process_verbs.specs.Asked.{HasMade, HoldsSome, MakesTerm, PutsInto, Searches};

use crate::verbs::Verbs;
use heaps_api::{Heaps, Make, Want, words_to_make, words_wanted};
use plain_machine::{Refusal, Reg};
use space_api::Seat;

impl<H: Heaps> Verbs<H> {
    /// Looks for what is wanted, once.
    #[inline]
    pub fn ask(&mut self, want: Want) -> Result<(), Refusal>
        requires holds { Holds H.meaning self.old }
        requires calls { self.old.calls < most_calls }
        requires row { HasWantedRow want (H.meaning.numbers self.old.heaps) }
        requires few { words_of_want want < 2 ^ 64 }
        ensures { Searches H.meaning want self.old self.new result }
    {
        self.calls += 1;
        if self.heaps.make_room(want) {
            return Ok(());
        }
        Err(Refusal::NoSpace(words_wanted(want)))
    }

    /// Builds a term in a register, where there is room for it.
    #[inline]
    pub fn make(&mut self, seat: Seat, r: Reg, make: Make) -> Result<(), Refusal>
        requires holds { Holds H.meaning self.old }
        requires calls { self.old.calls < most_calls }
        requires sits { Sits H.meaning self.old seat }
        requires register { IsRegister r }
        requires can { (s : State) → VerbsStand H.meaning self.old s → HasMade s.shared (process_at s.processes seat.row) make }
        ensures { MakesTerm H.meaning seat r make self.old self.new result }
    {
        self.ask(Want::Words(seat.row, words_to_make(make), 0))?;
        self.heaps.gain(seat.row, r, make);
        self.swept = false;
        Ok(())
    }

    /// Puts a word of the process, that of a term, into its register.
    #[inline]
    pub fn put(&mut self, seat: Seat, r: Reg, w: u64)
        requires holds { Holds H.meaning self.old }
        requires calls { self.old.calls < most_calls }
        requires sits { Sits H.meaning self.old seat }
        requires register { IsRegister r }
        requires held { (s : State) (o : VerbsStand H.meaning self.old s) → HoldsSome H.meaning self.old seat.row w s o }
        ensures { PutsInto H.meaning seat r w self.old self.new }
    {
        self.heaps.put(seat.row, r, w);
        self.calls += 1;
        self.swept = false;
    }
}
