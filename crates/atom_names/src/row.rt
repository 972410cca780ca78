// The bytes of one name.
ghost use Rattle.std.specs.Prelude.{◌≡◌, ℕ, ◌≤◌, length};
ghost use Rattle.atom_names.specs.Rows.{row_name};

/// The bytes of the longest name. This project's own limit.
pub const LONGEST_NAME: usize = 63;

/// The place of one name: its bytes are the first `len` of `bytes`.
#[derive(Clone, Copy)]
pub(crate) struct Row {
    pub(crate) len: u8,
    pub(crate) bytes: [u8; LONGEST_NAME],
}

/// A row that holds the name.
pub(crate) fn row_of(name: &[u8]) -> Row
    requires { length name.now ≤ LONGEST_NAME }
    ensures value { row_name result ≡ name.now }
    ensures short { result.len ≤ LONGEST_NAME }
{
    let mut bytes = [0; LONGEST_NAME];
    let len = name.len();
    bytes[..len].copy_from_slice(name);
    Row {
        len: len as u8,
        bytes,
    }
}

/// The name of the row, cut to its bytes.
pub(crate) fn name_in(row: &Row) -> &[u8]
    requires { row.now.len ≤ LONGEST_NAME }
    ensures { result.now ≡ row_name row.now }
{
    &row.bytes[..row.len as usize]
}
