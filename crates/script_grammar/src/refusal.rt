// Why a line is refused.
/// Why a line is refused. The state is then as it was before the line. This project's own list.
#[derive(Clone, Copy)]
pub enum Refusal {
    /// No live process has the number.
    NoProc,
    /// An operand is of the wrong kind or out of range.
    BadArg,
    /// The stack or the queue has nothing to give.
    Empty,
    /// A term is beyond the walk limit.
    Big,
    /// There is no room for this many words.
    NoSpace(u64),
    /// No area has the name.
    NoArea,
    /// An area of the name is there already, or there are too many.
    AreaThere,
    /// A map would have more than 32 keys.
    MapSize,
    /// There are as many processes as there may be.
    Procs,
    /// The new names of the line would be too many.
    Atoms,
    /// The line is not in the grammar.
    Syntax,
    /// The line has too many bytes.
    Long,
}
