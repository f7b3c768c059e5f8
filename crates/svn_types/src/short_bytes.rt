//! A few bytes that lie in the value itself.
ghost use Rattle.std.specs.Prelude.{◌≡◌, ◌+◌, ◌<◌, ◌≤◌, ℕ, ◌++◌, [], length, take, drop, get_or, nat_eq};
ghost use Rattle.std.specs.Ordering.{nat_cmp};
ghost use Rattle.std.specs.Cmp.Lexicographic.{pointwise, slice_cmp};
ghost use Rattle.svn_types.specs.LeadingBytes.{leading};

use crate::leading_bytes::word_at;
use std::cmp::Ordering;
use std::marker::Model;

/// At most `N` bytes, which take no memory of their own. `N` is below 256. Zeros lie after them. A contract sees them as their list.
#[derive(Drop)]
pub(crate) struct ShortBytes<const N: usize> {
    len: u8,
    room: [u8; N],
}

impl<const N: usize> Model for ShortBytes<N> {
    ghost use Rattle.std.specs.Prelude.{◌≡◌, ◌≤◌, ℕ, List, length, take};
    ghost use Rattle.svn_types.specs.LeadingBytes.{IsZeroFrom};

    ghost Value = { List ℕ };

    ghost view = { λ s. take s.len s.room };

    ghost invariant = { λ s. (s.len ≤ N) × (length s.room ≡ N) × IsZeroFrom s.len s.room };
}

// Writes bytes over those from `start` on.
fn write_at<const N: usize>(room: &mut [u8; N], start: usize, source: &[u8])
    requires { start + length source.now ≤ N }
    ensures front { take (start + length source.now) room.new ≡ take start room.old ++ source.now }
    ensures len { length room.new ≡ N }
    ensures behind { (i : ℕ) → start + length source.now ≤ i → get_or room.new i 0 ≡ get_or room.old i 0 }
{
    'byte: for i in 0..source.len() {
        room[start + i] = source[i];
    }
}

impl<const N: usize> ShortBytes<N> {
    /// No bytes.
    pub(crate) fn new() -> ShortBytes<N>
        ensures { result ≡ [] }
    {
        ShortBytes {
            len: 0,
            room: [0; N],
        }
    }

    /// These bytes, which fit.
    pub(crate) fn of(bytes: &[u8]) -> ShortBytes<N>
        requires small { N < 256 }
        requires fits { length bytes.now ≤ N }
        ensures { result ≡ bytes.now }
    {
        let mut all = ShortBytes::new();
        all.push_all(bytes);
        all
    }

    /// Appends bytes, which fit.
    pub(crate) fn push_all(&mut self, more: &[u8])
        requires small { N < 256 }
        requires fits { length self.old + length more.now ≤ N }
        ensures { self.new ≡ self.old ++ more.now }
    {
        let start = self.len as usize;
        write_at(&mut self.room, start, more);
        self.len = (start + more.len()) as u8;
    }

    /// The bytes.
    pub(crate) fn as_slice(&self) -> &[u8]
        ensures { result.now ≡ self.now }
    {
        &self.room[..self.len as usize]
    }

    /// The first eight bytes as one number, zeros after fewer.
    pub(crate) fn first_word(&self) -> u64
        requires { 8 ≤ N }
        ensures { result ≡ leading 8 self.now }
    {
        word_at(&self.room, 0)
    }

    /// How they compare with others in the order of bytes. The first eight bytes are compared as one number, and the last eight that there is room
    /// for: where all are equal, the shorter ones are a prefix.
    pub(crate) fn order(&self, other: &ShortBytes<N>) -> Ordering
        requires { (8 ≤ N) × (N ≤ 16) }
        ensures { result ≡ slice_cmp nat_cmp self.now other.now }
    {
        let (one, two) = (word_at(&self.room, 0), word_at(&other.room, 0));
        if one != two {
            return one.cmp(&two);
        }
        let (one, two) = (word_at(&self.room, N - 8), word_at(&other.room, N - 8));
        if one != two {
            return one.cmp(&two);
        }
        self.len.cmp(&other.len)
    }

    /// The same bytes.
    pub(crate) fn copy(&self) -> ShortBytes<N>
        ensures { result ≡ self.now }
    {
        ShortBytes {
            len: self.len,
            room: self.room,
        }
    }
}
