// What a command asks of the space, and the reply to the space's answer.
ghost use Rattle.std.specs.Prelude.{◌≡◌, ℕ, ◌<◌, ◌≤◌, List, OnErr, false, length, true};
ghost use Rattle.script_grammar.specs.declared.command.Command.{Command};
ghost use Rattle.script_grammar.specs.declared.command.Command.TheVariants.{Process, System};
ghost use Rattle.script_grammar.specs.Grammar.{IsBuiltCommand};
ghost use Rattle.script_grammar.specs.Names.{HasName, HasRegisters, IsInBounds};
ghost use Rattle.script_grammar.specs.Written.{Terms};
ghost use Rattle.plain_term.specs.declared.item.Item.{Item};
ghost use Rattle.plain_machine.specs.State.{State};
ghost use Rattle.plain_machine.specs.Step.{is_printing};
ghost use Rattle.space_api.specs.Calls.{KeepsBooks, most_calls, said};
ghost use Rattle.engine.specs.Replies.{CanReply, reply_of};
ghost use Rattle.engine.specs.Acts.{Acts, Fits, HasCode, OnRefused};

use crate::reply::{Asked, MapLine, Reply, Telling};
use atom_names::AtomNames;
use plain_machine::{Command, Refusal, SysVerb, Verb};
use plain_term::Item;
use space_api::{Seat, Space};

/// The reply to an answer of the space that tells nothing.
fn done(answer: Result<(), Refusal>) -> Reply
    ensures { result ≡ reply_of (λ _. Reply.Done) answer }
{
    match answer {
        Ok(()) => Reply::Done,
        Err(why) => Reply::Refused(why),
    }
}

/// The reply to the number of a new process.
fn spawned(answer: Result<u64, Refusal>) -> Reply
    ensures { result ≡ reply_of Reply.Spawned answer }
{
    match answer {
        Ok(n) => Reply::Spawned(n),
        Err(refusal) => Reply::Refused(refusal),
    }
}

/// Does a verb at a live process: every verb is told apart here, and nowhere else. What one tells that changes nothing is read when the
/// reply is written.
fn act_in<S: Space>(
    space: &mut S,
    names: &AtomNames,
    seat: Seat,
    verb: Verb,
    code: &[Item],
) -> Reply
    requires sits { S.sits space.old seat }
    requires built { IsBuiltCommand (Process seat.pid verb) }
    requires registers { HasRegisters verb }
    requires name { HasName verb }
    requires calls { S.calls space.old < most_calls }
    requires named { S.named space.old ≤ length names.now }
    requires code { HasCode (Process seat.pid verb) names.now code.now }
    ensures acts { (s : State) (terms : Terms) → S.stands space.old s → Fits (Process seat.pid verb) names.now code.now terms s
        → Acts (S.words space.old) s (said (Process seat.pid verb) terms names.now) result
        (record { stands = S.stands space.new; text = S.text space.new names.now }) }
    ensures can { CanReply S.sits S.named space.new names.now result }
    ensures books { KeepsBooks S.words S.calls S.named space.old space.new (length names.now) }
    ensures refused { OnRefused result (S.named space.new ≤ S.named space.old) }
    ensures leaves { is_printing (Process seat.pid verb) ≡ true → space.new ≡ space.old }
{
    match verb {
        Verb::Set(r) => done(space.build(names, seat, r, code)),
        Verb::Choose(r, s, how) => done(space.pick(names, seat, r, s, how)),
        Verb::MapPut(r, s, k, v) => done(space.map_put(names, seat, r, s, k, v)),
        Verb::Fill(r, len, byte) => done(space.fill(seat, r, len, byte)),
        Verb::Fun(r, name, arity) => done(space.make_fun(seat, r, name, arity, code)),
        Verb::Ref(r) => done(space.make_ref(seat, r)),
        Verb::Own(r) => {
            space.own_pid(seat, r);
            Reply::Done
        }
        Verb::Repeat(r, shape, n, s) => done(space.repeat(seat, r, shape, n, s)),
        Verb::Push(r) => done(space.push(seat, r)),
        Verb::Pop(r) => done(space.pop(seat, r)),
        Verb::Send(s, to) => done(space.send(seat, s, to)),
        Verb::Recv(r) => done(space.receive(seat, r)),
        Verb::Queue => Reply::Told(seat, Telling::Queue),
        Verb::Print(r) => Reply::Told(seat, Telling::Text(r)),
        Verb::Eq(a, b) => Reply::Told(seat, Telling::Compared(Asked::Equality, a, b)),
        Verb::Cmp(a, b) => Reply::Told(seat, Telling::Compared(Asked::Order, a, b)),
        Verb::Flat(r) => Reply::Told(seat, Telling::Flat(r)),
        Verb::Gc(depth) => {
            space.collect(seat, depth);
            Reply::Done
        }
        Verb::Exit => {
            space.exit(seat);
            Reply::Done
        }
        // No line says these.
        Verb::Lit(_, _, _) | Verb::Hibernate | Verb::Info | Verb::Heap => {
            Reply::Refused(Refusal::Syntax)
        }
    }
}

/// Does a verb of the system.
fn act_system<S: Space>(space: &mut S, names: &AtomNames, verb: SysVerb) -> Reply
    requires built { IsBuiltCommand (System verb) }
    requires calls { S.calls space.old < most_calls }
    requires named { S.named space.old ≤ length names.now }
    ensures acts { (s : State) (terms : Terms) (code : List Item) → S.stands space.old s → Fits (System verb) names.now code terms s
        → Acts (S.words space.old) s (said (System verb) terms names.now) result
        (record { stands = S.stands space.new; text = S.text space.new names.now }) }
    ensures can { CanReply S.sits S.named space.new names.now result }
    ensures books { KeepsBooks S.words S.calls S.named space.old space.new (length names.now) }
    ensures refused { OnRefused result (S.named space.new ≤ S.named space.old) }
    ensures leaves { is_printing (System verb) ≡ true → space.new ≡ space.old }
{
    match verb {
        SysVerb::Spawn => spawned(space.spawn()),
        SysVerb::Sweep => {
            space.sweep_all();
            Reply::Done
        }
        SysVerb::Procs => Reply::Numbers,
        SysVerb::Counts => Reply::Map(MapLine::Counts),
        SysVerb::Quit => Reply::Quit,
        // No line says these.
        SysVerb::Load(_, _) | SysVerb::Purge(_) | SysVerb::Dump => {
            Reply::Refused(Refusal::Syntax)
        }
    }
}

/// Does a command. One that prints leaves the space as it is.
pub(crate) fn act<S: Space>(
    space: &mut S,
    names: &AtomNames,
    command: Command,
    code: &[Item],
) -> Reply
    requires built { IsBuiltCommand command }
    requires bounds { IsInBounds command }
    requires calls { S.calls space.old < most_calls }
    requires named { S.named space.old ≤ length names.now }
    requires code { HasCode command names.now code.now }
    ensures acts { (s : State) (terms : Terms) → S.stands space.old s → Fits command names.now code.now terms s
        → Acts (S.words space.old) s (said command terms names.now) result
        (record { stands = S.stands space.new; text = S.text space.new names.now }) }
    ensures can { CanReply S.sits S.named space.new names.now result }
    ensures books { KeepsBooks S.words S.calls S.named space.old space.new (length names.now) }
    ensures refused { OnRefused result (S.named space.new ≤ S.named space.old) }
    ensures leaves { is_printing command ≡ true → space.new ≡ space.old }
{
    match command {
        Command::Nothing => Reply::Nothing,
        Command::Process(pid, verb) => {
            let Some(seat) = space.find(pid) else {
                return Reply::Refused(Refusal::NoProc);
            };
            act_in(space, names, seat, verb, code)
        }
        Command::System(verb) => act_system(space, names, verb),
    }
}
