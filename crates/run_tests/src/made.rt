// Scripts that are made from numbers.
ghost use Rattle.std.specs.Prelude.{◌<◌};

use crate::runs::{Ending, Failing, Left, Words, done, ends, told};
use itoa::Buffer;
use std::alloc::Global;
use std::test::Fail;

// The summaries of the numbers from 1 on, as `scripts/made-summaries` prints them.
const SUMMARIES: [&[u8]; 20] = [
    b"lines 100000 errors 27558 bytes 2558694 sum 1568642200\n",
    b"lines 100000 errors 27958 bytes 2303499 sum 2763767608\n",
    b"lines 100000 errors 27881 bytes 2513400 sum 4124923646\n",
    b"lines 100000 errors 27817 bytes 2464914 sum 527691207\n",
    b"lines 100000 errors 27819 bytes 2563009 sum 313960073\n",
    b"lines 100000 errors 28052 bytes 2456332 sum 2392775563\n",
    b"lines 100000 errors 27689 bytes 2389039 sum 2956409780\n",
    b"lines 100000 errors 27833 bytes 2415716 sum 1612159787\n",
    b"lines 100000 errors 27945 bytes 2432826 sum 57905530\n",
    b"lines 100000 errors 27859 bytes 2353522 sum 238845137\n",
    b"lines 100000 errors 27812 bytes 2435815 sum 215230329\n",
    b"lines 100000 errors 27829 bytes 2386243 sum 1345301131\n",
    b"lines 100000 errors 27907 bytes 2482890 sum 3832703458\n",
    b"lines 100000 errors 27773 bytes 2380188 sum 373850047\n",
    b"lines 100000 errors 28090 bytes 2346484 sum 200553956\n",
    b"lines 100000 errors 27631 bytes 2444456 sum 3410723400\n",
    b"lines 100000 errors 27885 bytes 2504733 sum 1976039646\n",
    b"lines 100000 errors 27796 bytes 2345891 sum 1494267080\n",
    b"lines 100000 errors 27768 bytes 2573065 sum 2874525019\n",
    b"lines 100000 errors 27841 bytes 2526693 sum 1474734303\n",
];

// A script that is not read, and a source that would fail.
const SCRIPT: &[u8] = b"1 print 0\n";

const NO_READ: Failing<'static> = Failing {
    reads: &[1],
    writes: &[],
};

// The third write of seven bytes fails, too.
const NO_THIRD_WRITE: Failing<'static> = Failing {
    reads: &[1],
    writes: &[3],
};

// Whether a run from a number ends so.
fn is_made(alloc: Global, from: u64, piece: usize, failing: Failing, ending: Ending) -> bool
    requires { 0 < piece }
{
    let mut buffer = Buffer::new();
    let words = ["beam_heap", "--gen", buffer.format(from)];
    ends(alloc, Words::Texts(&words), SCRIPT, piece, failing, ending)
}

// The first summary that two runs from its number do not write.
fn wrong_summary(alloc: Global) -> Option<&'static [u8]> {
    let mut from = 0u64;
    for written in &SUMMARIES {
        from = from.saturating_add(1);
        let ending = done(written, Left::Machine);
        if !is_made(alloc, from, 1, NO_READ, ending)
            || !is_made(alloc, from, 8192, NO_READ, ending)
        {
            return Some(written);
        }
    }
    None
}

#[test]
fn made_scripts_have_their_summaries(rt: HostRuntime) -> Result<(), Fail> {
    told(wrong_summary(rt.alloc()))
}

// The end of a run whose third write of seven bytes fails.
const CUT: Ending<'static> = Ending {
    ends: 3,
    written: b"lines 100000 e",
    left: Left::Machine,
};

#[test]
fn a_summary_that_is_not_written_whole_is_told(rt: HostRuntime) {
    assert!(rt; is_made(rt.alloc(), 1, 7, NO_THIRD_WRITE, CUT));
}
