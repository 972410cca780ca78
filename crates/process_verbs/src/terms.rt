// The verbs that bring terms from outside registers, or parts of those in them.
ghost use Rattle.std.specs.Prelude.{◌≡◌, ℕ, ◌+◌, ◌<◌, ◌≤◌, List, OnErr, OnOk, false, length, max};
ghost use Rattle.atom_names.specs.Names.{most_names};
ghost use Rattle.plain_machine.specs.State.{State};
ghost use Rattle.script_grammar.specs.declared.command.Command.TheVariants.{Process};
ghost use Rattle.script_grammar.specs.declared.command.Verb.TheVariants as verb;
ghost use Rattle.script_grammar.specs.Names.{IsRegister, PicksRegister};
ghost use Rattle.script_grammar.specs.Written.{Terms};
ghost use Rattle.space_api.specs.Calls.{Becomes, HasEnv, HasTerm, IsEnv, most_calls, said};
ghost use Rattle.heaps_api.specs.Written.{refusal_of_stop, want_of_items};
ghost use Rattle.heaps_api.specs.declared.wanted.Want.TheVariants.{Words};
ghost use Rattle.process_verbs.specs.Verbs.{Holds, Sits, VerbsStand, memory_words};
ghost use Rattle.process_verbs.specs.Doing.{Asks, AsksUnless, Books, Builds, DoesBy, IsIdle, takes_part};

use crate::verbs::Verbs;
use atom_names::AtomNames;
use heaps_api::{Heaps, Want};
use item_build::{BuildStop, term_needs};
use plain_machine::{MOST_ARITY, Pick, Refusal, Reg};
use plain_term::Item;
use space_api::Seat;
use term_verbs::part;

impl<H: Heaps> Verbs<H> {
    /// Builds a written term in a register.
    pub fn build(
        &mut self,
        names: &AtomNames,
        seat: Seat,
        r: Reg,
        code: &[Item],
    ) -> Result<(), Refusal>
        requires holds { Holds H.meaning self.old }
        requires calls { self.old.calls < most_calls }
        requires sits { Sits H.meaning self.old seat }
        requires register { IsRegister r }
        requires named { self.old.named ≤ length names.now }
        requires term { HasTerm names.now code.now }
        ensures builds { Builds H.meaning names.now seat.pid r code.now self.old self.new result }
        ensures asks { Asks H.meaning (want_of_items seat.row code.now) self.old self.new result }
    {
        let named = names.count();
        let words = term_needs(code);
        self.ask(Want::Words(seat.row, words.heap, words.far))?;
        match self
            .heaps
            .gain_term(names, seat.row, r, &mut self.scratch, self.serials, code)
        {
            Ok(bins) => {
                self.serials += bins;
                self.named = named;
                self.swept = false;
                Ok(())
            }
            Err(stop) => Err(refusal_of(stop)),
        }
    }

    /// Puts a fun in a register: its name by number, its arity, and the registers whose terms are its environment.
    pub fn make_fun(
        &mut self,
        seat: Seat,
        r: Reg,
        name: u64,
        arity: u64,
        env: &[Item],
    ) -> Result<(), Refusal>
        requires holds { Holds H.meaning self.old }
        requires calls { self.old.calls < most_calls }
        requires sits { Sits H.meaning self.old seat }
        requires register { IsRegister r }
        requires name { name < most_names }
        requires env { IsEnv env.now }
        ensures becomes { (s : State) (terms : Terms) (names : List (List ℕ)) → VerbsStand H.meaning self.old s → HasEnv names name env.now terms
            → Becomes (memory_words H.meaning self.old) s (said (Process seat.pid (verb.Fun r name arity)) terms names) result (VerbsStand H.meaning self.new) }
        ensures books { Books H.meaning self.old self.new (max self.old.named (name + 1)) }
        ensures refused { OnErr result (self.new.named ≤ self.old.named) }
        ensures asks { AsksUnless H.meaning (Words seat.row (6 + length env.now) 4) self.old self.new result }
        ensures holds { Holds H.meaning self.new }
    {
        if arity > MOST_ARITY {
            return Err(Refusal::BadArg);
        }
        self.ask(Want::Words(seat.row, 6 + env.len() as u64, 4))?;
        self.heaps
            .gain_fun(seat.row, r, name, arity, &mut self.scratch, env);
        self.named = above(self.named, name);
        self.swept = false;
        Ok(())
    }

    /// Puts a part of a register's term, other than bytes of a binary, in a register.
    pub fn pick(
        &mut self,
        names: &AtomNames,
        seat: Seat,
        r: Reg,
        s: Reg,
        how: Pick,
    ) -> Result<(), Refusal>
        requires holds { Holds H.meaning self.old }
        requires calls { self.old.calls < most_calls }
        requires sits { Sits H.meaning self.old seat }
        requires register { IsRegister r }
        requires other { IsRegister s }
        requires key { PicksRegister how }
        requires whole { takes_part how ≡ false }
        requires named { self.old.named ≤ length names.now }
        ensures does { DoesBy H.meaning names.now (Process seat.pid (verb.Choose r s how)) self.old self.new result }
        ensures idle { OnOk result (IsIdle H.meaning self.old self.new) }
        ensures refused { OnErr result (self.new ≡ self.old) }
    {
        let regs = *self.heaps.regs(seat.row);
        let Some(w) = part(self.heaps.mem(), names, &regs, regs[s.0 as usize], how) else {
            return Err(Refusal::BadArg);
        };
        self.put(seat, r, w);
        Ok(())
    }
}

// The refusal of a written term that is not built.
fn refusal_of(stop: BuildStop) -> Refusal
    ensures { result ≡ refusal_of_stop stop }
{
    match stop {
        BuildStop::Big => Refusal::Big,
        BuildStop::Size => Refusal::MapSize,
    }
}

// A number above all names so far and above one more.
fn above(named: u64, name: u64) -> u64
    requires { name < most_names }
    ensures { result ≡ max named (name + 1) }
{
    if named > name { named } else { name + 1 }
}
