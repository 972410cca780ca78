// Terms: those without parts, and those in brackets.
ghost use Rattle.std.specs.Prelude.{◌≡◌, ℕ, ◌+◌, ◌≤◌, ◌<◌, Bool, List, [], length, MatchOption, Some, None};
ghost use Rattle.script_parse.specs.declared.buffer.TheConstants.{MOST_ITEMS};
ghost use Rattle.script_parse.specs.Output.{given, begun, begun_items, led_items, OutputGrows, Spends};
ghost use Rattle.script_parse.specs.Reading.{item_at, leaf_run, byte_run, pair_run, part_run, parts_run, end_run, form_run, term_run};

use crate::atoms::atom;
use crate::blanks::{after_byte, after_text, skip};
use crate::forms::{Form, opened};
use crate::numbers::{GREATEST_BYTE, LAST_REGISTER, integer, number, pid};
use crate::output::Output;
use plain_term::Item;

/// A term without parts but an atom, as its item.
fn item(line: &[u8]) -> Option<(Item, &[u8])>
    ensures value { MatchOption result (item_at line.now ≡ None) (λ r. item_at line.now ≡ Some (r.0, r.1.now)) }
    ensures shorter { MatchOption result (Unit {0}) (λ r. length r.1.now < length line.now) }
{
    if let Some(rest) = after_byte(line, b'<')
        && let Some((n, rest)) = pid(rest)
    {
        return Some((Item::Pid(n), rest));
    }
    if let Some(rest) = after_byte(line, b'$')
        && let Some((r, rest)) = number(rest, LAST_REGISTER)
    {
        return Some((Item::Held(r as u8), rest));
    }
    let (i, rest) = integer(line)?;
    Some((Item::Int(i), rest))
}

/// A term without parts goes last. The line begins with its first byte.
fn leaf<'a>(line: &'a [u8], out: &mut Output) -> Option<&'a [u8]>
    requires { length out.old.code.now + length line.now ≤ MOST_ITEMS }
    ensures read { MatchOption result (leaf_run line.now (given out.old) ≡ None) (λ r. leaf_run line.now (given out.old) ≡ Some (r.now, given out.new)) }
    ensures grown { OutputGrows out.old out.new }
    ensures room { MatchOption result (Unit {0}) (λ r. Spends 0 line.now r.now out.old out.new) }
{
    if let Some((name, rest)) = atom(line) {
        out.put_atom(name);
        return Some(rest);
    }
    if let Some((item, rest)) = item(line) {
        out.push(item);
        return Some(rest);
    }
    None
}

/// A byte of a binary goes last.
fn byte<'a>(line: &'a [u8], out: &mut Output) -> Option<&'a [u8]>
    requires { length out.old.code.now + length line.now ≤ MOST_ITEMS }
    ensures read { MatchOption result (byte_run line.now (given out.old) ≡ None) (λ r. byte_run line.now (given out.old) ≡ Some (r.now, given out.new)) }
    ensures grown { OutputGrows out.old out.new }
    ensures room { MatchOption result (Unit {0}) (λ r. Spends 0 line.now r.now out.old out.new) }
{
    let (n, rest) = number(skip(line), GREATEST_BYTE)?;
    out.push(Item::Byte(n as u8));
    Some(rest)
}

/// A key and its value go last.
#[cycle(terms)]
fn pair<'a>(line: &'a [u8], levels: u64, out: &mut Output) -> Option<&'a [u8]>
    requires { length out.old.code.now + length line.now ≤ MOST_ITEMS }
    ensures read { MatchOption result (pair_run (term_run levels) line.now (given out.old) ≡ None)
        (λ r. pair_run (term_run levels) line.now (given out.old) ≡ Some (r.now, given out.new)) }
    ensures grown { OutputGrows out.old out.new }
    ensures room { MatchOption result (Unit {0}) (λ r. Spends 0 line.now r.now out.old out.new) }
{
    if let Some(rest) = term(line, levels, out)
        && let Some(rest) = after_text(skip(rest), b"=>")
    {
        return term(rest, levels, out);
    }
    None
}

/// A part of a form goes last.
#[cycle(terms)]
fn part<'a>(form: Form, line: &'a [u8], levels: u64, out: &mut Output) -> Option<&'a [u8]>
    requires { length (led_items form out.old.code.now) + length line.now ≤ MOST_ITEMS }
    ensures read { MatchOption result (part_run (term_run levels) form line.now (given out.old) ≡ None)
        (λ r. part_run (term_run levels) form line.now (given out.old) ≡ Some (r.now, given out.new)) }
    ensures grown { OutputGrows out.old out.new }
    ensures room { MatchOption result (Unit {0})
        (λ r. (length out.new.code.now + length r.now ≤ length (led_items form out.old.code.now) + length line.now) × (length r.now < length line.now)) }
{
    match form {
        Form::Map => pair(line, levels, out),
        Form::Binary => byte(line, out),
        Form::List | Form::Tuple => {
            out.lead(form);
            term(line, levels, out)
        }
    }
}

/// The parts of a form go last. The line begins after its opening. Answers how many there are, too.
#[cycle(terms)]
fn parts<'a>(form: Form, line: &'a [u8], levels: u64, out: &mut Output) -> Option<(&'a [u8], u64)>
    requires { length (led_items form out.old.code.now) + length line.now ≤ MOST_ITEMS }
    ensures read { MatchOption result (parts_run (part_run (term_run levels) form) (length line.now + 1) line.now 0 (given out.old) ≡ None)
        (λ r. parts_run (part_run (term_run levels) form) (length line.now + 1) line.now 0 (given out.old) ≡ Some (r.0.now, (r.1, given out.new))) }
    ensures grown { OutputGrows out.old out.new }
    ensures room { MatchOption result (Unit {0})
        (λ r. (length out.new.code.now + length r.0.now ≤ length (led_items form out.old.code.now) + length line.now) × (length r.0.now < length line.now)) }
{
    let mut at = line;
    for n in 0..line.len() + 1 {
        let rest = part(form, at, levels, out)?;
        let Some(after) = after_byte(skip(rest), b',') else {
            return Some((rest, n as u64 + 1));
        };
        at = after;
    }
    None
}

/// A form whose items begin at this place and that has so many parts is completed, or its last tail goes last.
#[cycle(terms)]
fn ending<'a>(
    form: Form,
    line: &'a [u8],
    levels: u64,
    at: usize,
    n: u64,
    out: &mut Output,
) -> Option<&'a [u8]>
    requires room { length out.old.code.now + length line.now ≤ MOST_ITEMS }
    requires at { at + length (begun_items form []) ≤ length out.old.code.now }
    ensures read { MatchOption result (end_run (term_run levels) form at n line.now (given out.old) ≡ None)
        (λ r. end_run (term_run levels) form at n line.now (given out.old) ≡ Some (r.now, given out.new)) }
    ensures grown { OutputGrows out.old out.new }
    ensures room { MatchOption result (Unit {0}) (λ r. Spends 0 line.now r.now out.old out.new) }
{
    let line = skip(line);
    if let Some(rest) = after_text(line, form.closing()) {
        out.end(form, at, n);
        return Some(rest);
    }
    if form.has_tail()
        && let Some(rest) = after_byte(line, b'|')
        && let Some(rest) = term(rest, levels, out)
    {
        return after_text(skip(rest), form.closing());
    }
    None
}

/// A form goes last. The line begins after its opening.
#[cycle(terms)]
fn bracketed<'a>(form: Form, line: &'a [u8], levels: u64, out: &mut Output) -> Option<&'a [u8]>
    requires { length out.old.code.now + length line.now < MOST_ITEMS }
    ensures read { MatchOption result (form_run (term_run levels) form line.now (given out.old) ≡ None)
        (λ r. form_run (term_run levels) form line.now (given out.old) ≡ Some (r.now, given out.new)) }
    ensures grown { OutputGrows out.old out.new }
    ensures room { MatchOption result (Unit {0}) (λ r. Spends 1 line.now r.now out.old out.new) }
{
    let at = out.code.len();
    out.begin(form);
    if let Some(rest) = after_text(skip(line), form.closing()) {
        out.end(form, at, 0);
        return Some(rest);
    }
    let (rest, n) = parts(form, line, levels, out)?;
    ending(form, rest, levels, at, n, out)
}

/// A term goes last, with at most so many levels of brackets.
#[cycle(terms)]
pub(crate) fn term<'a>(line: &'a [u8], levels: u64, out: &mut Output) -> Option<&'a [u8]>
    requires { length out.old.code.now + length line.now ≤ MOST_ITEMS }
    ensures read { MatchOption result (term_run levels line.now (given out.old) ≡ None)
        (λ r. term_run levels line.now (given out.old) ≡ Some (r.now, given out.new)) }
    ensures grown { OutputGrows out.old out.new }
    ensures room { MatchOption result (Unit {0}) (λ r. Spends 0 line.now r.now out.old out.new) }
{
    let line = skip(line);
    if levels > 0
        && let Some((form, rest)) = opened(line)
    {
        return bracketed(form, rest, levels - 1, out);
    }
    leaf(line, out)
}
