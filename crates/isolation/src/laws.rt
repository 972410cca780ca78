// The laws of isolation, each the contract of a function that does nothing.
ghost use Rattle.isolation.specs.Laws.{RunsIsolate, SameViewsSameReplies};

/// In each run from the first state each `spawn` that is not refused brings the process with the next number to live, and no other
/// line brings one; and where no line was answered for want of space or of names, the replies to a process's own lines, map lines
/// aside, are those of its view.
pub fn runs_isolate()
    ensures { RunsIsolate }
{}

/// Two such runs that give a process the same view give it the same replies.
pub fn same_views_are_answered_alike()
    ensures { SameViewsSameReplies }
{}
