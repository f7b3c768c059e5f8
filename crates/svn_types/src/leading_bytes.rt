//! Bytes read as numbers, which compare in one step.
ghost use Rattle.std.specs.Prelude.{◌≡◌, ◌+◌, ◌≤◌, length, drop};
ghost use Rattle.svn_types.specs.LeadingBytes.{IsByteList, leading};

/// Eight bytes from a place on as one number, the first the highest: one read from memory.
pub(crate) fn word_at(bytes: &[u8], start: usize) -> u64
    requires { start + 8 ≤ length bytes.now }
    ensures word { result ≡ leading 8 (drop start bytes.now) }
    ensures bytes { IsByteList bytes.now }
{
    u64::from_be_bytes([
        bytes[start],
        bytes[start + 1],
        bytes[start + 2],
        bytes[start + 3],
        bytes[start + 4],
        bytes[start + 5],
        bytes[start + 6],
        bytes[start + 7],
    ])
}
