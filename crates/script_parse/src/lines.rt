// A whole line read into a command, or refused.
ghost use Rattle.std.specs.Prelude.{
  ◌≡◌,
  ℕ,
  ◌+◌,
  ◌≤◌,
  ◌<◌,
  ◌⊎◌,
  Bool,
  true,
  false,
  List,
  [],
  length,
  MatchOption,
  Some,
  None,
  IfOk,
  IfErr,
  IsErrOf,
};
ghost use Rattle.script_grammar.specs.Written.{Written};
ghost use Rattle.script_grammar.specs.Grammar.{SaysOne, IsBuiltCommand};
ghost use Rattle.script_grammar.specs.Names.{IsInBounds};
ghost use Rattle.script_grammar.specs.ReadAs.{SaysNoCommand, BringsTooMany};
ghost use Rattle.script_parse.specs.declared.buffer.TheConstants.{MOST_ITEMS};
ghost use Rattle.script_parse.specs.Output.{out, given, OutputGrows, NamesStay};
ghost use Rattle.script_parse.specs.Parses.{ReadsLine};
ghost use Rattle.script_parse.specs.Reading.{is_silent, command_run, line_run};

use crate::blanks::{after_text, skip};
use crate::buffer::Code;
use crate::numbers::{GREATEST, number};
use crate::output::Output;
use crate::verbs::{process_verb, system_verb};
use atom_names::AtomNames;
use script_grammar::{Command, Refusal};

/// Nothing is left, or a comment begins.
fn silent(line: &[u8]) -> bool
    ensures { result ≡ is_silent line.now }
{
    match line {
        [] => true,
        [b, ..] => *b == b'%',
    }
}

/// A command. The line begins with its first byte.
fn command(line: &[u8], out: &mut Output) -> Option<Command>
    requires { length out.old.code.now + length line.now ≤ MOST_ITEMS }
    ensures read { MatchOption result (command_run line.now (given out.old) ≡ None) (λ c. command_run line.now (given out.old) ≡ Some (c, given out.new)) }
    ensures grown { OutputGrows out.old out.new }
{
    if let Some((n, rest)) = number(line, GREATEST) {
        let verb = process_verb(rest, out)?;
        return Some(Command::Process(n, verb));
    }
    if let Some(rest) = after_text(line, b"sys")
        && let Some(verb) = system_verb(rest)
    {
        return Some(Command::System(verb));
    }
    None
}

/// A whole line.
fn whole(line: &[u8], out: &mut Output) -> Option<Command>
    requires { length out.old.code.now + length line.now ≤ MOST_ITEMS }
    ensures read { MatchOption result (line_run line.now (given out.old) ≡ None) (λ c. line_run line.now (given out.old) ≡ Some (c, given out.new)) }
    ensures grown { OutputGrows out.old out.new }
{
    let start = skip(line);
    if silent(start) {
        return Some(Command::Nothing);
    }
    command(start, out)
}

/// What a line says, and whether a name found no place. All names stay in their places.
fn read(line: &[u8], names: &mut AtomNames, code: &mut Code) -> Option<(Command, bool)>
    requires { length code.old + length line.now ≤ MOST_ITEMS }
    ensures read { MatchOption result (line_run line.now (out names.old false code.old) ≡ None)
        (λ r. line_run line.now (out names.old false code.old) ≡ Some (r.0, out names.new r.1 code.new)) }
    ensures kept { NamesStay names.old names.new }
{
    let mut out = Output {
        names,
        code,
        full: false,
    };
    let command = whole(line, &mut out)?;
    Some((command, out.full))
}

/// Reads a line of at most `MOST_ITEMS` bytes without its end. The items of its terms are left in `code`,
/// its new names go last in `names`.
///
/// `Syntax` where the line is not in the grammar, or is in it only through a verb or a form that is
/// not built; `Atoms` where it is, and its new names are too many.
pub fn parse(line: &[u8], names: &mut AtomNames, code: &mut Code) -> Result<Command, Refusal>
    requires { length line.now ≤ MOST_ITEMS }
    ensures said { IfOk result (λ c. (w : Written) × ReadsLine line.now names.old c names.new code.new w) }
    ensures built { IfOk result IsBuiltCommand }
    ensures bounds { IfOk result IsInBounds }
    ensures kept { IfErr result (λ e. (names.new ≡ names.old) × ((e ≡ Refusal.Syntax) ⊎ (e ≡ Refusal.Atoms))) }
    ensures syntax { IsErrOf result Refusal.Syntax → SaysNoCommand line.now }
    ensures atoms { IsErrOf result Refusal.Atoms → BringsTooMany names.old line.now }
{
    code.clear();
    let before = names.count();
    if let Some((command, full)) = read(line, names, code) {
        if !full {
            return Ok(command);
        }
        names.forget(before);
        return Err(Refusal::Atoms);
    }
    names.forget(before);
    Err(Refusal::Syntax)
}

/// A line says one command at most, among those that are built.
pub fn one_reading()
    ensures { SaysOne }
{}
