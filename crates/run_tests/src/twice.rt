// One script after another: on one machine, and into one store.
ghost use Rattle.std.specs.Prelude.{ℕ, ◌+◌, ◌≤◌, length};
ghost use Rattle.space_api.specs.Calls.{most_calls};

use crate::runs::ROOM;
use engine::{Machine, Stepped, serve, step};
use line_io::{Limits, LineReader, MemSink, MemSource};
use machine_run::{Status, Store, first_machine, run};
use space_api::Space;
use std::alloc::Global;
use std::test::Fail;

// How many lines and bytes each script may have.
const LIMITS: Limits = Limits {
    lines: 100,
    bytes: 1000,
};

// What the first script makes is there for the second, and for a line after both.
const FIRST: &[u8] = b"1 set 0 {a,b}\nsys spawn\nsys quit\n1 set 0 c\n";

const SECOND: &[u8] = b"1 print 0\n2 set 0 b\n1 send 0 2\nsys procs\n";

const LINE: &[u8] = b"2 recv 0";

const REPLIES: &[u8] = b"ok\nok 2\nok\n{a,b}\nok\nok\n[1,2]\nok\n";

// A run begins anew, whatever the store held.
const ANEW: &[u8] = b"ok\nok 2\nok\n[]\nok 2\n[1,2]\n";

const AGAIN: &[u8] = b"1 print 0\nsys spawn\nsys procs\n";

// Whether a script was served to its end.
fn is_done(status: Status) -> bool {
    matches!(status, Status::Done)
}

// Whether a script is served to its end by a machine that has so many calls left.
fn serves<S: Space>(
    machine: &mut Machine<S>,
    alloc: Global,
    script: &[u8],
    sink: &mut MemSink,
) -> bool
    requires calls { S.calls machine.old.space + 100 ≤ most_calls }
    requires named { S.named machine.old.space ≤ length machine.old.names }
    ensures calls { S.calls machine.new.space ≤ S.calls machine.old.space + 100 }
    ensures named { S.named machine.new.space ≤ length machine.new.names }
{
    if let Ok(mut reader) = LineReader::new(alloc, LIMITS)
        && let Ok(mut source) = MemSource::new(alloc, script, 7, &[])
    {
        is_done(serve(machine, &mut reader, &mut source, sink))
    } else {
        false
    }
}

// Whether one machine serves two scripts, and does a line after them.
fn serves_both(alloc: Global, sink: &mut MemSink) -> bool {
    let Some(mut machine) = first_machine(alloc, 4096) else {
        return false;
    };
    let first = serves(&mut machine, alloc, FIRST, sink);
    let second = serves(&mut machine, alloc, SECOND, sink);
    let last = step(&mut machine, LINE, sink);
    first && second && matches!(last, Stepped::Next)
}

// Whether a script is run to its end, whatever is in the store.
fn runs(alloc: Global, store: &mut Store, script: &[u8], sink: &mut MemSink) -> bool {
    let Ok(mut source) = MemSource::new(alloc, script, 7, &[]) else {
        return false;
    };
    is_done(run(alloc, &["beam_heap"], store, &mut source, sink))
}

// Whether two scripts are run one after the other into one store.
fn runs_both(alloc: Global, sink: &mut MemSink) -> bool {
    let mut store = Store::empty();
    runs(alloc, &mut store, FIRST, sink) && runs(alloc, &mut store, AGAIN, sink)
}

#[test]
fn a_second_script_is_served_by_the_same_machine(rt: HostRuntime) -> Result<(), Fail> {
    let mut sink = MemSink::new(rt.alloc(), ROOM, ROOM, &[])?;
    let both = serves_both(rt.alloc(), &mut sink);
    assert!(rt; both && sink.bytes() == REPLIES);
    Ok(())
}

#[test]
fn a_run_begins_anew_where_the_store_holds_a_machine(rt: HostRuntime) -> Result<(), Fail> {
    let mut sink = MemSink::new(rt.alloc(), ROOM, ROOM, &[])?;
    let both = runs_both(rt.alloc(), &mut sink);
    assert!(rt; both && sink.bytes() == ANEW);
    Ok(())
}
