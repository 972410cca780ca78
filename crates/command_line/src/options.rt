// The words of a command line, read into options or refused.
ghost use Rattle.std.specs.Prelude.{◌≡◌, ◌↔◌, IfOk, map, List, Some, None};
ghost use Rattle.clap.specs.Words.{found_of, kind_of, rows_of};
ghost use Rattle.command_line.specs.Words.{asks, options_of, options_asked};

use crate::values::{arena_asked, is_space, number_asked};
use crate::words::match_words;
use clap::error::ErrorKind;
use clap::{ArgMatches, Error};
use std::alloc::Global;

/// What a command line asks for: the words of the arena, and the number that a script is made from in place of one
/// that is read.
#[derive(Clone, Copy)]
pub struct Options {
    pub arena: u64,
    pub made_from: Option<u64>,
}

/// Why the options could not be read: the words ask for nothing that there is, or there was no memory to read them.
#[derive(Clone, Copy)]
pub enum Refusal {
    Usage,
    Memory,
}

/// The refusal of words by the parser's error.
fn refusal_of(error: &Error) -> Refusal
    ensures { result ≡ Refusal.Memory ↔ (kind_of error.now ≡ ErrorKind.OutOfMemory) }
{
    match error.kind() {
        ErrorKind::OutOfMemory => Refusal::Memory,
        _ => Refusal::Usage,
    }
}

/// The options by the arena, the space and the number to make a script from. `None` where one of them cannot be had.
fn options_of(arena: Option<u64>, has_space: bool, number: Option<Option<u64>>) -> Option<Options>
    ensures { result ≡ options_of arena has_space number }
{
    let arena = arena?;
    if !has_space {
        return None;
    }
    let made_from = number?;
    Some(Options { arena, made_from })
}

/// What the matches ask for.
fn options_asked(matches: &ArgMatches) -> Option<Options>
    ensures { result ≡ options_asked (rows_of (found_of matches.now)) }
{
    let arena = arena_asked(matches.get_str("arena"));
    let has_space = is_space(matches.get_str("space"));
    let number = number_asked(matches.get_str("gen"));
    options_of(arena, has_space, number)
}

/// The options of a command line, the program's name first. All memory that this takes is given back.
pub fn read_options(alloc: Global, words: &[&str]) -> Result<Options, Refusal>
    ensures options { IfOk result (λ o. asks (map (λ w. w.now) words.now) ≡ Some o) }
    ensures usage { result ≡ Err Refusal.Usage → asks (map (λ w. w.now) words.now) ≡ None }
{
    match match_words(alloc, words) {
        Ok(matches) => options_asked(&matches).ok_or(Refusal::Usage),
        Err(error) => Err(refusal_of(&error)),
    }
}
