// What things count for beside the terms that they hold, in words.

/// A process.
pub const PROCESS_COST: u64 = 16;

/// A literal area.
pub const AREA_COST: u64 = 16;

/// A place of a stack.
pub const PLACE_COST: u64 = 2;

/// A queued message.
pub const MESSAGE_COST: u64 = 8;

/// A counted record, beside the bytes in it.
pub const RECORD_COST: u64 = 4;

/// An object that names a counted record, which is new with it.
pub const COUNTED_COST: u64 = 10;
