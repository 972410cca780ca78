// The words, as the parser of command lines takes them.
ghost use Rattle.std.specs.Prelude.{◌≡◌, IfOk, IfErr, map, [], List};
ghost use Rattle.clap.specs.Words.{HasKind, found_of, rows_of};
ghost use Rattle.command_line.specs.Words.{faults, matches};

use clap::{Arg, ArgMatches, Command, Error};
use std::alloc::Global;

/// What the words match, with the three options of the program.
pub(crate) fn match_words<'a>(alloc: Global, words: &'a [&'a str]) -> Result<ArgMatches<'a>, Error>
    ensures ok { IfOk result (λ m. faults (map (λ w. w.now) words.entry.now) ≡ []) }
    ensures rows { IfOk result (λ m. rows_of (found_of m) ≡ matches (map (λ w. w.now) words.entry.now)) }
    ensures err { IfErr result (λ e. HasKind (faults (map (λ w. w.now) words.entry.now)) e) }
{
    let arena = Arg::new(alloc, "arena").long("arena");
    let space = Arg::new(alloc, "space").long("space");
    let number = Arg::new(alloc, "gen").long("gen");
    let command = Command::new(alloc, "beam_heap")
        .arg(arena)?
        .arg(space)?
        .arg(number)?;
    command.try_get_matches_from(words)
}
