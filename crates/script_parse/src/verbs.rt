// The operands of each verb.
ghost use Rattle.std.specs.Prelude.{◌≡◌, ℕ, ◌+◌, ◌≤◌, ◌<◌, true, false, List, [], length, MatchOption, Some, None, map};
ghost use Rattle.script_grammar.specs.Written.{kinds_of};
ghost use Rattle.script_grammar.specs.Written.Kind.{Slot, Count};
ghost use Rattle.script_grammar.specs.declared.limits.TheConstants.{MOST_HELD};
ghost use Rattle.script_parse.specs.declared.buffer.TheConstants.{MOST_ITEMS};
ghost use Rattle.script_parse.specs.declared.numbers.TheConstants.{GREATEST, LAST_REGISTER};
ghost use Rattle.script_parse.specs.Output.{Out, given, OutputGrows};
ghost use Rattle.script_parse.specs.Reading.{extent_at, held_at, held_run, number_at, receiver_at, spaced_at, title_run, row, row_run, most_of, kind_of, numbers_at, takes_numbers, verb_from, numbers_run, verb_run, process_run, sys_verb_run, system_run};

use crate::atoms::atom;
use crate::blanks::{after_byte, after_text, ends, gap, skip, word_len};
use crate::numbers::{GREATEST, LAST_REGISTER, number};
use crate::output::Output;
use crate::terms::term;
use crate::words::{sys_word, verb_word};
use plain_term::Item;
use script_grammar::{
    Depth, LEVELS, MOST_HELD, Pick, Reg, Shape, SysVerb, SysWord, To, Verb, Word,
};

/// An operand of a row that is one number.
#[derive(Clone, Copy)]
enum Numeric {
    Slot,
    Count,
}

/// A blank and a register.
fn register(line: &[u8]) -> Option<(Reg, &[u8])>
    ensures value { MatchOption result (spaced_at (number_at LAST_REGISTER) line.now ≡ None)
        (λ r. spaced_at (number_at LAST_REGISTER) line.now ≡ Some (r.0.0, r.1.now)) }
    ensures shorter { MatchOption result (Unit {0}) (λ r. length r.1.now ≤ length line.now) }
{
    if let Some(rest) = gap(line)
        && let Some((n, rest)) = number(skip(rest), LAST_REGISTER)
    {
        return Some((Reg(n as u8), rest));
    }
    None
}

/// A blank and a name, by its number.
fn title<'a>(line: &'a [u8], out: &mut Output) -> Option<(u64, &'a [u8])>
    ensures read { MatchOption result (title_run line.now (given out.old) ≡ None)
        (λ r. title_run line.now (given out.old) ≡ Some (r.0, (r.1.now, given out.new))) }
    ensures grown { OutputGrows out.old out.new }
    ensures same { length out.new.code.now ≡ length out.old.code.now }
    ensures shorter { MatchOption result (Unit {0}) (λ r. length r.1.now ≤ length line.now) }
{
    if let Some(rest) = gap(line)
        && let Some((name, rest)) = atom(skip(rest))
    {
        return Some((out.put_name(name), rest));
    }
    None
}

/// A blank, `$` and a register.
fn held(line: &[u8]) -> Option<(u8, &[u8])>
    ensures value { MatchOption result (spaced_at held_at line.now ≡ None) (λ r. spaced_at held_at line.now ≡ Some (r.0, r.1.now)) }
    ensures shorter { MatchOption result (Unit {0}) (λ r. length r.1.now < length line.now) }
{
    if let Some(rest) = gap(line)
        && let Some(rest) = after_byte(skip(rest), b'$')
        && let Some((r, rest)) = number(rest, LAST_REGISTER)
    {
        return Some((r as u8, rest));
    }
    None
}

/// The registers of an environment go last, as long as one comes, but as many as there may be at most.
fn environment<'a>(line: &'a [u8], out: &mut Output) -> &'a [u8]
    requires { length out.old.code.now + length line.now ≤ MOST_ITEMS }
    ensures read { held_run MOST_HELD line.now (given out.old) ≡ (result.now, given out.new) }
    ensures grown { OutputGrows out.old out.new }
{
    let mut rest = line;
    for _ in 0..MOST_HELD {
        let Some((r, after)) = held(rest) else {
            return rest;
        };
        out.push(Item::Held(r));
        rest = after;
    }
    rest
}

/// A process by its number, or by `$` and a register.
fn receiver(line: &[u8]) -> Option<(To, &[u8])>
    ensures value { MatchOption result (receiver_at line.now ≡ None) (λ r. receiver_at line.now ≡ Some (r.0, r.1.now)) }
{
    if let Some(after) = after_byte(line, b'$')
        && let Some((r, rest)) = number(after, LAST_REGISTER)
    {
        return Some((To::Held(Reg(r as u8)), rest));
    }
    let (n, rest) = number(line, GREATEST)?;
    Some((To::Number(n), rest))
}

/// A depth of collection.
fn depth(line: &[u8]) -> Option<(Depth, &[u8])>
    ensures value { MatchOption result (extent_at line.now ≡ None) (λ r. extent_at line.now ≡ Some (r.0, r.1.now)) }
{
    if let Some(rest) = after_text(line, b"minor") {
        return Some((Depth::Minor, rest));
    }
    let rest = after_text(line, b"major")?;
    Some((Depth::Major, rest))
}

/// A number of a row, by what it counts.
fn spaced_number(kind: Numeric, line: &[u8]) -> Option<(u64, &[u8])>
    ensures value { MatchOption result (spaced_at (number_at (most_of kind)) line.now ≡ None)
        (λ r. spaced_at (number_at (most_of kind)) line.now ≡ Some (r.0, r.1.now)) }
    ensures shorter { MatchOption result (Unit {0}) (λ r. length r.1.now ≤ length line.now) }
{
    let rest = skip(gap(line)?);
    match kind {
        Numeric::Slot => number(rest, LAST_REGISTER),
        Numeric::Count => number(rest, GREATEST),
    }
}

/// The numbers of a row of up to four, and nothing more. Those past its end are 0.
fn numbers(kinds: &[Numeric], line: &[u8]) -> Option<(u64, u64, u64, u64)>
    ensures { MatchOption result (numbers_at kinds.now line.now ≡ None) (λ n. numbers_at kinds.now line.now ≡ Some (n.0, (n.1, (n.2, n.3)))) }
{
    match kinds {
        [] => if ends(line) { Some((0, 0, 0, 0)) } else { None },
        [kind, more @ ..] => {
            if let Some((a, rest)) = spaced_number(*kind, line)
                && let Some((b, c, d, _)) = numbers(more, rest)
            {
                return Some((a, b, c, d));
            }
            None
        }
    }
}

/// A register, a name, a number and an environment, and nothing more: the register gets the fun. The environment's registers go last.
#[tactic(auto, unfolding(crate::specs::Reading::row_run))]
fn slot_title_count_held(line: &[u8], out: &mut Output) -> Option<Verb>
    requires { length out.old.code.now + length line.now ≤ MOST_ITEMS }
    ensures read { MatchOption result (verb_run Word.Fun line.now (given out.old) ≡ None)
        (λ v. verb_run Word.Fun line.now (given out.old) ≡ Some (v, given out.new)) }
    ensures grown { OutputGrows out.old out.new }
{
    if let Some((r, rest)) = register(line)
        && let Some((name, rest)) = title(rest, out)
        && let Some((arity, rest)) = spaced_number(Numeric::Count, rest)
        && ends(environment(rest, out))
    {
        return Some(Verb::Fun(r, name, arity));
    }
    None
}

/// A register and a process, and nothing more: the process gets the register's term.
#[tactic(auto, unfolding(crate::specs::Reading::row_run))]
fn slot_receiver(line: &[u8]) -> Option<Verb>
    ensures value { (o : Out) → MatchOption result (verb_run Word.Send line.now o ≡ None) (λ v. verb_run Word.Send line.now o ≡ Some (v, o)) }
{
    if let Some((r, rest)) = register(line)
        && let Some(rest) = gap(rest)
        && let Some((to, rest)) = receiver(skip(rest))
        && ends(rest)
    {
        return Some(Verb::Send(r, to));
    }
    None
}

/// A depth of collection, and nothing more: the process is collected so.
#[tactic(auto, unfolding(crate::specs::Reading::row_run))]
fn extent(line: &[u8]) -> Option<Verb>
    ensures value { (o : Out) → MatchOption result (verb_run Word.Gc line.now o ≡ None) (λ v. verb_run Word.Gc line.now o ≡ Some (v, o)) }
{
    if let Some(rest) = gap(line)
        && let Some((depth, rest)) = depth(skip(rest))
        && ends(rest)
    {
        return Some(Verb::Gc(depth));
    }
    None
}

/// A register and a term, and nothing more: the register gets the term. The term goes last.
#[tactic(auto, unfolding(crate::specs::Reading::row_run))]
fn slot_body(line: &[u8], out: &mut Output) -> Option<Verb>
    requires { length out.old.code.now + length line.now ≤ MOST_ITEMS }
    ensures read { MatchOption result (verb_run Word.Set line.now (given out.old) ≡ None)
        (λ v. verb_run Word.Set line.now (given out.old) ≡ Some (v, given out.new)) }
    ensures grown { OutputGrows out.old out.new }
{
    if let Some((r, rest)) = register(line)
        && let Some(rest) = gap(rest)
        && let Some(rest) = term(rest, LEVELS, out)
        && ends(rest)
    {
        return Some(Verb::Set(r));
    }
    None
}

/// The row of a verb of a process whose operands are registers and numbers alone.
fn numeric_row(word: Word) -> Option<&'static [Numeric]>
    ensures { MatchOption result (takes_numbers word ≡ false) (λ ks. (takes_numbers word ≡ true) × (map kind_of ks.now ≡ kinds_of word)) }
{
    match word {
        Word::Ref | Word::Own | Word::Push | Word::Pop | Word::Recv | Word::Print | Word::Flat => {
            Some(&[Numeric::Slot])
        },
        Word::Queue | Word::Exit => Some(&[]),
        Word::Hd | Word::Tl | Word::Eq | Word::Cmp => Some(&[Numeric::Slot, Numeric::Slot]),
        Word::MapGet => Some(&[Numeric::Slot, Numeric::Slot, Numeric::Slot]),
        Word::MapPut => Some(&[Numeric::Slot, Numeric::Slot, Numeric::Slot, Numeric::Slot]),
        Word::Elem | Word::Env | Word::MkTuple | Word::MkList => {
            Some(&[Numeric::Slot, Numeric::Count, Numeric::Slot])
        },
        Word::Part => Some(&[Numeric::Slot, Numeric::Slot, Numeric::Count, Numeric::Count]),
        Word::Fill => Some(&[Numeric::Slot, Numeric::Count, Numeric::Count]),
        _ => None,
    }
}

/// The verb of a process that these numbers of its row make. A register is below 16, so that its byte is all of it.
fn made(word: Word, n: (u64, u64, u64, u64)) -> Verb
    requires { takes_numbers word ≡ true }
    ensures { result ≡ verb_from word (n.0, (n.1, (n.2, n.3))) }
{
    let (a, b, c, d) = n;
    let r = Reg((a % 256) as u8);
    let s = Reg((b % 256) as u8);
    let t = Reg((c % 256) as u8);
    match word {
        Word::Hd => Verb::Choose(r, s, Pick::Hd),
        Word::Tl => Verb::Choose(r, s, Pick::Tl),
        Word::Elem => Verb::Choose(r, t, Pick::Elem(b)),
        Word::MapGet => Verb::Choose(r, s, Pick::MapGet(t)),
        Word::MapPut => Verb::MapPut(r, s, t, Reg((d % 256) as u8)),
        Word::Part => Verb::Choose(r, s, Pick::Part(c, d)),
        Word::Fill => Verb::Fill(r, b, c),
        Word::Env => Verb::Choose(r, t, Pick::Env(b)),
        Word::Ref => Verb::Ref(r),
        Word::Own => Verb::Own(r),
        Word::MkTuple => Verb::Repeat(r, Shape::Tuple, b, t),
        Word::MkList => Verb::Repeat(r, Shape::List, b, t),
        Word::Push => Verb::Push(r),
        Word::Pop => Verb::Pop(r),
        Word::Recv => Verb::Recv(r),
        Word::Print => Verb::Print(r),
        Word::Eq => Verb::Eq(r, s),
        Word::Cmp => Verb::Cmp(r, s),
        Word::Flat => Verb::Flat(r),
        Word::Queue => Verb::Queue,
        Word::Exit => Verb::Exit,
        _ => unreachable!(),
    }
}

/// The operands of a verb of a process that takes registers and numbers alone.
fn numeric_verb(word: Word, line: &[u8]) -> Option<Verb>
    ensures { (o : Out) → MatchOption result (numbers_run word line.now o ≡ None) (λ v. numbers_run word line.now o ≡ Some (v, o)) }
{
    if let Some(kinds) = numeric_row(word)
        && let Some(n) = numbers(kinds, line)
    {
        return Some(made(word, n));
    }
    None
}

/// The operands of a verb of a process, by the table of what is built.
fn verb(word: Word, line: &[u8], out: &mut Output) -> Option<Verb>
    requires { length out.old.code.now + length line.now ≤ MOST_ITEMS }
    ensures read { MatchOption result (verb_run word line.now (given out.old) ≡ None)
        (λ v. verb_run word line.now (given out.old) ≡ Some (v, given out.new)) }
    ensures grown { OutputGrows out.old out.new }
{
    match word {
        Word::Set => slot_body(line, out),
        Word::Fun => slot_title_count_held(line, out),
        Word::Send => slot_receiver(line),
        Word::Gc => extent(line),
        _ => numeric_verb(word, line),
    }
}

/// A process line after its number.
pub(crate) fn process_verb(line: &[u8], out: &mut Output) -> Option<Verb>
    requires { length out.old.code.now + length line.now ≤ MOST_ITEMS }
    ensures read { MatchOption result (process_run line.now (given out.old) ≡ None) (λ v. process_run line.now (given out.old) ≡ Some (v, given out.new)) }
    ensures grown { OutputGrows out.old out.new }
{
    let rest = skip(gap(line)?);
    let n = word_len(rest);
    let word = verb_word(&rest[..n])?;
    verb(word, &rest[n..], out)
}

/// A verb of the system that is built. It has no operand.
fn alone(word: SysWord) -> Option<SysVerb>
    ensures { (line : List ℕ) (o : Out) → MatchOption result (sys_verb_run word line o ≡ None)
        (λ v. sys_verb_run word line o ≡ row_run (row [] (λ _. v)) line o) }
{
    match word {
        SysWord::Spawn => Some(SysVerb::Spawn),
        SysWord::Sweep => Some(SysVerb::Sweep),
        SysWord::Counts => Some(SysVerb::Counts),
        SysWord::Procs => Some(SysVerb::Procs),
        SysWord::Quit => Some(SysVerb::Quit),
        _ => None,
    }
}

/// A verb of the system, with nothing after it.
#[tactic(auto, unfolding(crate::specs::Reading::row_run))]
fn sys_verb(word: SysWord, line: &[u8]) -> Option<SysVerb>
    ensures { (o : Out) → MatchOption result (sys_verb_run word line.now o ≡ None) (λ v. sys_verb_run word line.now o ≡ Some (v, o)) }
{
    if let Some(verb) = alone(word)
        && ends(line)
    {
        return Some(verb);
    }
    None
}

/// A system line after its first word.
pub(crate) fn system_verb(line: &[u8]) -> Option<SysVerb>
    ensures { (o : Out) → MatchOption result (system_run line.now o ≡ None) (λ v. system_run line.now o ≡ Some (v, o)) }
{
    let rest = skip(gap(line)?);
    let n = word_len(rest);
    let word = sys_word(&rest[..n])?;
    sys_verb(word, &rest[n..])
}
