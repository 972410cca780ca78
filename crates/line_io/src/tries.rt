// Calls of std that a signal may interrupt.
ghost use Rattle.std.specs.Prelude.{◌≡◌, ◌≤◌, length, IfSome};

use std::io::{Error, ErrorKind, Read, Write};

// How often a call is tried that is interrupted each time.
const MOST_TRIES: u32 = 100;

// Reads once, and again where that was interrupted; none at any other error, or where each try was interrupted.
pub(crate) fn try_read<R: Read>(reader: &mut R, buf: &mut [u8]) -> Option<usize>
    ensures { IfSome result (λ n. n ≤ length buf.new) }
{
    for _i in 0..MOST_TRIES {
        match reader.read(buf) {
            Ok(n) => return Some(n),
            Err(error) => {
                if !is_interrupted(&error) {
                    return None;
                }
            }
        }
    }
    None
}

// Writes once, and again where that was interrupted; none as above.
pub(crate) fn try_write<W: Write>(writer: &mut W, bytes: &[u8]) -> Option<usize>
    ensures { IfSome result (λ n. n ≤ length bytes.now) }
{
    for _i in 0..MOST_TRIES {
        match writer.write(bytes) {
            Ok(n) => return Some(n),
            Err(error) => {
                if !is_interrupted(&error) {
                    return None;
                }
            }
        }
    }
    None
}

// Flushes once, and again where that was interrupted; says whether it was done.
pub(crate) fn try_flush<W: Write>(writer: &mut W) -> bool {
    for _i in 0..MOST_TRIES {
        match writer.flush() {
            Ok(()) => return true,
            Err(error) => {
                if !is_interrupted(&error) {
                    return false;
                }
            }
        }
    }
    false
}

fn is_interrupted(error: &Error) -> bool {
    error.kind() == ErrorKind::Interrupted
}
