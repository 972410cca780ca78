// The records that words of terms name: kinds of blocks of memory.

/// The kind of a binary record: first word, serial, count, length in bytes, and its bytes in words. 4 words and those of
/// the bytes.
pub const BIN_RECORD: u64 = 6;
/// The kind of a fun record: first word, name and arity, count, 0. 4 words.
pub const FUN_RECORD: u64 = 7;
