// Scripts served at the trial space.
ghost use Rattle.std.specs.Prelude.{◌≤◌, length};

use crate::space::TrialSpace;
use atom_names::AtomNames;
use engine::{Machine, Status, Stepped, serve, step};
use line_io::{Limits, LineReader, MemSink, MemSource};
use script_parse::Code;
use space_api::Space;
use std::alloc::Global;
use std::rt::HostRuntime;
use std::test::Fail;

// Nothing is read after `sys quit`.
const SCRIPT: &[u8] =
    b"1 set 0 a\n1 print 0\n1 set 1 [a]\n1 set 1 {a,{}}\n1 push 0\nsys spawn\n1 pop 0\n1 self 2\n1 print 2\n% a comment\n\n1 set 3 -7\n1 print 3\n1 gc minor\n1 gc major\nsys sweep\n1 print 4\n2 print 0\nsys procs\n1 exit\n1 print 0\nsys procs\nsys quit\n1 print 0\n";

const REPLIES: &[u8] =
    b"ok\na\nerror nospace 2\nerror nospace 4\nerror nospace 2\nerror nospace 16\nerror empty\nok\n<0.1.0>\nok\n-7\nok\nok\nok\n[]\nerror noproc\n[1]\nok\nerror noproc\n[]\nok\n";

// The verbs on terms: what needs no word is done, and each refusal stands before the want of words.
const VERBS: &[u8] =
    b"1 set 0 a\n1 set 1 $0\n1 print 1\n1 eq 0 1\n1 set 1 b\n1 eq 0 1\n1 cmp 0 1\n1 cmp 1 0\n1 cmp 1 1\n1 self 2\n1 cmp 0 2\n1 cmp 3 2\n1 set 4 -9\n1 set 5 7\n1 cmp 4 5\n1 flat 4\n1 hd 0 0\n1 elem 0 1 0\n1 mapget 0 0 0\n1 mapput 0 0 0 0\n1 ref 0\n1 mktuple 0 2 0\n1 mklist 0 2 0\n1 mklist 0 65537 0\n1 mklist 6 0 0\n1 print 6\n1 set 0 576460752303423488\n1 set 0 [a|b]\n1 set 0 #{a=>$0,b=>{}}\n1 print 0\n";

// Binaries, parts, funs and counts: the bounds of a line stand before the want of words.
const BINARIES: &[u8] =
    b"1 set 0 <<1,2>>\n1 set 0 [<<>>]\n1 fill 0 64 1\n1 fill 0 65 1\n1 fill 0 1048577 1\n1 fill 0 0 256\n1 part 0 0 0 0\n1 fun 0 f 255 $0 $1\n1 fun 0 f 256\n1 env 0 1 0\nsys counts\nsys sweep\nsys counts\n";

const LISTED: &[u8] =
    b"error nospace 3\nerror nospace 4\nerror nospace 10\nerror nospace 19\nerror badarg\nerror badarg\nerror badarg\nerror nospace 12\nerror badarg\nerror badarg\nbins [] funs []\nok\nbins [] funs []\n";

// Messages: the process has no words for its own, and no other takes one.
const MESSAGES: &[u8] =
    b"1 send 0 1\n1 send 0 2\n1 send 0 $0\n1 self 1\n1 send 0 $1\n1 set 1 <0.3.0>\n1 send 0 $1\n1 recv 0\n1 queue\n";

const SENT: &[u8] =
    b"error nospace 8\nok\nerror badarg\nok\nerror nospace 8\nok\nok\nerror empty\n[]\n";

const TOLD: &[u8] =
    b"ok\nok\na\ntrue\nok\nfalse\nlt\ngt\neq\nok\nlt\ngt\nok\nok\nlt\n0\nerror badarg\nerror badarg\nerror badarg\nerror badarg\nerror nospace 3\nerror nospace 3\nerror nospace 4\nerror badarg\nok\n[]\nerror nospace 2\nerror nospace 2\nerror nospace 9\na\n";

// A script, the replies to its lines, and what they show.
struct Case {
    shows: &'static str,
    script: &'static [u8],
    replies: &'static [u8],
}

const CASES: [Case; 4] = [
    Case {
        shows: "a script is served",
        script: SCRIPT,
        replies: REPLIES,
    },
    Case {
        shows: "what needs no word of the verbs on terms is done",
        script: VERBS,
        replies: TOLD,
    },
    Case {
        shows: "binaries and funs find no words, and none is counted",
        script: BINARIES,
        replies: LISTED,
    },
    Case {
        shows: "a message finds no words, and none waits",
        script: MESSAGES,
        replies: SENT,
    },
];

// Whether a script was served to its end.
fn is_done(status: Status) -> bool {
    matches!(status, Status::Done)
}

// Whether a script is served to its end.
fn serves(
    machine: &mut Machine<TrialSpace>,
    alloc: Global,
    script: &[u8],
    sink: &mut MemSink,
) -> bool
    requires { ⟦<TrialSpace as Space>⟧.named machine.old.space ≤ length machine.old.names }
{
    let limits = Limits {
        lines: 100,
        bytes: 1000,
    };
    let Ok(mut reader) = LineReader::new(alloc, limits) else {
        return false;
    };
    let Ok(mut source) = MemSource::new(alloc, script, 7, &[]) else {
        return false;
    };
    is_done(serve(machine, &mut reader, &mut source, sink))
}

// Whether a line that is done goes on, and one that quits ends the script.
fn went(set: Stepped, quit: Stepped) -> bool {
    matches!(set, Stepped::Next) && matches!(quit, Stepped::Quit)
}

// Whether two lines are done one by one, and leave the process alive.
fn steps(machine: &mut Machine<TrialSpace>, sink: &mut MemSink) -> bool
    requires { ⟦<TrialSpace as Space>⟧.named machine.old.space ≤ length machine.old.names }
{
    let set = step(machine, b"1 set 5 ok", sink);
    let quit = step(machine, b"sys quit", sink);
    let lives = machine.space.find(1).is_some();
    lives && went(set, quit)
}

// What a new machine is given: a whole script, or two lines one by one.
#[derive(Clone, Copy)]
enum Given<'a> {
    Script(&'a [u8]),
    Lines,
}

// Whether a new machine does what it is given, and writes these replies.
fn answers(alloc: Global, given: Given, replies: &[u8]) -> Result<bool, Fail> {
    let mut sink = MemSink::new(alloc, 1000, 5, &[])?;
    let code = Code::new(alloc)?;
    let names = AtomNames::new(alloc)?;
    let space = TrialSpace::start();
    let mut machine = Machine { space, names, code };
    let does = match given {
        Given::Script(script) => serves(&mut machine, alloc, script, &mut sink),
        Given::Lines => steps(&mut machine, &mut sink),
    };
    Ok(does && sink.bytes() == replies)
}

// Each script is, or what it shows is told.
fn are_served(alloc: Global) -> Result<(), Fail> {
    for case in &CASES {
        if !answers(alloc, Given::Script(case.script), case.replies)? {
            return Err(Fail::new(case.shows));
        }
    }
    Ok(())
}

#[test]
fn scripts_are_served_at_a_space_that_is_no_arena(rt: HostRuntime) -> Result<(), Fail> {
    are_served(rt.alloc())
}

#[test]
fn a_line_is_one_step(rt: HostRuntime) -> Result<(), Fail> {
    assert!(rt; answers(rt.alloc(), Given::Lines, b"ok\nok\n")?);
    Ok(())
}
