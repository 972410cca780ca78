// What words are wanted for.

ghost use Rattle.std.specs.Prelude.{◌≡◌, ◌<◌, ◌^◌};
ghost use Rattle.heaps_api.specs.Wanted.{words_of_want};

use plain_machine::{MESSAGE_COST, PROCESS_COST};

/// What a line wants words for, and how many.
#[derive(Clone, Copy)]
pub enum Want {
    /// For the process with this row: words of objects or of its stack, and words of records that its objects name.
    Words(usize, u64, u64),
    /// A message to the process with this row: a copy of a term of this flat size.
    Message(usize, u64),
    /// A process.
    Process,
}

/// The words that a line asks for.
pub fn words_wanted(want: Want) -> u64
    requires { words_of_want want < 2 ^ 64 }
    ensures { result ≡ words_of_want want }
{
    match want {
        Want::Words(_, n, records) => n + records,
        Want::Message(_, flat) => MESSAGE_COST + flat,
        Want::Process => PROCESS_COST,
    }
}
