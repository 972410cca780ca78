// The limits of what a line may say.
/// How many registers a process has.
pub const REGISTERS: u64 = 16;

/// Every number of a line but those in terms is below this; so are the numbers of processes and of pids.
pub const NUMBERS: u64 = 1 << 40;

/// In how many levels brackets may stand.
pub const LEVELS: u64 = 256;

/// How many registers the environment of a fun may have.
pub const MOST_HELD: u64 = 64;
