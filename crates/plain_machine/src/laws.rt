// The laws of steps and of runs.
ghost use Rattle.script_grammar.specs.Grammar.{SaysOne};
ghost use Rattle.plain_machine.specs.State.{first_state};
ghost use Rattle.plain_machine.specs.Laws.{HoldsProper, IsNumbered, LacksOnlyWhereMay, NeverElse, NumbersAreFresh, PrintingLeaves, RefusalsLeave, RepliesDetermine, RunsJoin, TreesStayProper};

/// A run over two lists of lines is the two runs one after the other.
pub fn runs_join()
    ensures { RunsJoin }
{}

/// Every line that is answered by a refusal, whatever its cause, leaves the whole state, and the script goes on.
pub fn refusals_leave()
    ensures { RefusalsLeave }
{}

/// A line is answered that there is no space only where that may be, by the number of words that it asks for. Where a line says
/// one command at most, one for which it may not be is never refused so.
pub fn space_lacks_only_where_it_may()
    ensures only { LacksOnlyWhereMay }
    ensures never { SaysOne → NeverElse }
{}

/// A line that prints brings no name, asks for no word and leaves the state.
pub fn printing_leaves()
    ensures { PrintingLeaves }
{}

/// Process numbers rise, and a number that comes to live was given to none before it.
pub fn numbers_are_fresh()
    ensures first { IsNumbered first_state }
    ensures always { NumbersAreFresh }
{}

/// All trees that live are proper, at first and after every line. Only lines of built verbs and forms change
/// anything, so the law widens with the table of these.
pub fn trees_stay_proper()
    ensures first { HoldsProper first_state }
    ensures always { TreesStayProper }
{}

/// Where a line says one command at most, lines and their replies determine the state after them.
pub fn replies_determine()
    ensures { SaysOne → RepliesDetermine }
{}
