// What a machine may have at most.
/// The most processes that live at a time.
pub const MOST_PROCESSES: usize = 1024;

/// The most literal areas that stand at a time.
pub const MOST_AREAS: usize = 64;

/// The most places of a tuple or a list that is made of one term.
pub const MOST_PLACES: u64 = 65_536;

/// The most bytes of a binary that is filled.
pub const MOST_FILL: u64 = 1_048_576;

/// The greatest arity of a fun.
pub const MOST_ARITY: u64 = 255;

/// The greatest byte.
pub const MOST_BYTE: u64 = 255;
