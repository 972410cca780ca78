// The texts of the words, and the word of a text.
ghost use Rattle.std.specs.Prelude.{◌≡◌, ℕ, List, length};
ghost use Rattle.script_parse.specs.Reading.{word_named, sys_word_named, named_in};

use script_grammar::{SysWord, Word};

/// The verbs of a process whose texts have two bytes.
const OF_TWO: [(Word, &[u8]); 4] = [
    (Word::Hd, b"hd"),
    (Word::Tl, b"tl"),
    (Word::Eq, b"eq"),
    (Word::Gc, b"gc"),
];

/// The verbs of a process whose texts have three bytes.
const OF_THREE: [(Word, &[u8]); 7] = [
    (Word::Set, b"set"),
    (Word::Fun, b"fun"),
    (Word::Env, b"env"),
    (Word::Ref, b"ref"),
    (Word::Pop, b"pop"),
    (Word::Cmp, b"cmp"),
    (Word::Lit, b"lit"),
];

/// The verbs of a process whose texts have four bytes.
const OF_FOUR: [(Word, &[u8]); 11] = [
    (Word::Elem, b"elem"),
    (Word::Part, b"part"),
    (Word::Fill, b"fill"),
    (Word::Own, b"self"),
    (Word::Push, b"push"),
    (Word::Send, b"send"),
    (Word::Recv, b"recv"),
    (Word::Flat, b"flat"),
    (Word::Info, b"info"),
    (Word::Heap, b"heap"),
    (Word::Exit, b"exit"),
];

/// The verbs of a process whose texts have five bytes.
const OF_FIVE: [(Word, &[u8]); 2] = [(Word::Queue, b"queue"), (Word::Print, b"print")];

/// The verbs of a process whose texts have six bytes.
const OF_SIX: [(Word, &[u8]); 3] = [
    (Word::MapGet, b"mapget"),
    (Word::MapPut, b"mapput"),
    (Word::MkList, b"mklist"),
];

/// The verbs of a process whose texts have seven bytes.
const OF_SEVEN: [(Word, &[u8]); 1] = [(Word::MkTuple, b"mktuple")];

/// The verbs of a process whose texts have more bytes.
const OF_MORE: [(Word, &[u8]); 1] = [(Word::Hibernate, b"hibernate")];

/// The verbs of the system.
const SYS_WORDS: [(SysWord, &[u8]); 8] = [
    (SysWord::Spawn, b"spawn"),
    (SysWord::Load, b"load"),
    (SysWord::Purge, b"purge"),
    (SysWord::Sweep, b"sweep"),
    (SysWord::Counts, b"counts"),
    (SysWord::Dump, b"dump"),
    (SysWord::Procs, b"procs"),
    (SysWord::Quit, b"quit"),
];

/// The word of a table that is written so.
fn named<W: Copy>(table: &[(W, &[u8])], bytes: &[u8]) -> Option<W>
    ensures { result ≡ named_in table.now bytes.now }
{
    for (word, text) in table {
        if bytes == *text {
            return Some(*word);
        }
    }
    None
}

/// The verbs of a process among which one is whose text has so many bytes.
fn verbs_of(len: usize) -> &'static [(Word, &'static [u8])]
    ensures { (bytes : List ℕ) → length bytes ≡ len → named_in result.now bytes ≡ word_named bytes }
{
    match len {
        2 => &OF_TWO,
        3 => &OF_THREE,
        4 => &OF_FOUR,
        5 => &OF_FIVE,
        6 => &OF_SIX,
        7 => &OF_SEVEN,
        _ => &OF_MORE,
    }
}

/// The verb of a process that is written so.
pub(crate) fn verb_word(bytes: &[u8]) -> Option<Word>
    ensures { result ≡ word_named bytes.now }
{
    named(verbs_of(bytes.len()), bytes)
}

/// The verb of the system that is written so.
pub(crate) fn sys_word(bytes: &[u8]) -> Option<SysWord>
    ensures { result ≡ sys_word_named bytes.now }
{
    named(&SYS_WORDS, bytes)
}
