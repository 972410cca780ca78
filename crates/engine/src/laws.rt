// The law of replies, for whatever space.
ghost use Rattle.plain_machine.specs.Laws.{RepliesDetermine};

/// Lines and their replies determine the state after them, whatever the spaces may refuse.
pub fn replies_determine()
    ensures { RepliesDetermine }
{
    script_parse::one_reading();
    plain_machine::replies_determine();
}
