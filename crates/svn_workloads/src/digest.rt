//! Digests of results, for telling results apart.

ghost use Rattle.std.specs.Prelude.{◌+◌, ◌≤◌, length};

use std::fmt;

const BASIS: u64 = 0xcbf2_9ce4_8422_2325;

const PRIME: u64 = 0x100_0000_01b3;

// Bytes that are taken at once.
const WORD: usize = 8;

// Eight bytes from a place on as a number.
fn word_at(bytes: &[u8], from: usize) -> u64
    requires { from + 8 ≤ length bytes.now }
{
    u64::from_le_bytes([
        bytes[from],
        bytes[from + 1],
        bytes[from + 2],
        bytes[from + 3],
        bytes[from + 4],
        bytes[from + 5],
        bytes[from + 6],
        bytes[from + 7],
    ])
}

/// How many bytes were added, and a digest of them: FNV-1a, which takes eight bytes at a time.
#[derive(Clone, Copy)]
pub(crate) struct Digest {
    count: u64,
    state: u64,
}

impl Digest {
    pub(crate) fn new() -> Digest {
        Digest {
            count: 0,
            state: BASIS,
        }
    }

    pub(crate) fn tell(&mut self, bytes: &[u8]) {
        let words = bytes.len() / WORD;
        for at in 0..words {
            self.take(word_at(bytes, at * WORD));
        }
        for byte in &bytes[words * WORD..] {
            self.take(u64::from(*byte));
        }
        self.count = self.count.saturating_add(bytes.len() as u64);
    }

    pub(crate) fn tell_number(&mut self, number: u64) {
        self.take(number);
        self.count = self.count.saturating_add(8);
    }

    // High bits come down, so that the words of a result count by their order too.
    fn take(&mut self, word: u64) {
        let state = (self.state ^ word).wrapping_mul(PRIME);
        self.state = state ^ (state >> 32);
    }
}

impl fmt::Display for Digest {
    fn fmt<W: fmt::Write>(&self, f: &mut fmt::Formatter<W>) -> fmt::Result {
        let count = self.count;
        let state = self.state;
        write!(f, "{count} {state:016x}")
    }
}
