//! Bytes with room for their checksum.
ghost use Rattle.std.specs.Prelude.{◌≡◌, ◌≤◌, length, IfSome};
ghost use Rattle.md5.specs.Md5.{md5};

use crate::digest::Digest;
use crate::short_bytes::ShortBytes;
use std::marker::Model;

/// A few bytes with their MD5 checksum, which lie in the value itself. A contract sees the bytes.
#[derive(Drop)]
pub(crate) struct ShortSummed {
    bytes: ShortBytes<14>,
    checksum: Digest,
}

impl Model for ShortSummed {
    ghost use Rattle.std.specs.Prelude.{◌≡◌, ℕ, List};
    ghost use Rattle.md5.specs.Md5.{md5};

    ghost Value = { List ℕ };

    ghost view = { λ s. s.bytes };

    ghost invariant = { λ s. s.checksum ≡ md5 s.bytes };
}

impl ShortSummed {
    /// The most bytes that there may be.
    pub(crate) const MAX: usize = 14;

    /// These bytes, which fit, with their checksum.
    pub(crate) fn of(bytes: &[u8], checksum: Digest) -> ShortSummed
        requires fits { length bytes.now ≤ 14 }
        requires sum { checksum ≡ md5 bytes.now }
        ensures { result ≡ bytes.now }
    {
        ShortSummed {
            bytes: ShortBytes::of(bytes),
            checksum,
        }
    }

    /// The bytes.
    pub(crate) fn as_slice(&self) -> &[u8]
        ensures { result.now ≡ self.now }
    {
        self.bytes.as_slice()
    }

    /// Their checksum.
    pub(crate) fn checksum(&self) -> Digest
        ensures { result ≡ md5 self.now }
    {
        self.checksum
    }

    /// The same bytes.
    pub(crate) fn copy(&self) -> ShortSummed
        ensures { result ≡ self.now }
    {
        ShortSummed {
            bytes: self.bytes.copy(),
            checksum: self.checksum,
        }
    }
}

/// Bytes in a vector, with their MD5 checksum if the caller asks for it. A contract sees the bytes.
#[derive(Drop)]
pub(crate) struct LongBytes {
    bytes: Vec<u8>,
    checksum: Option<Digest>,
}

impl Model for LongBytes {
    ghost use Rattle.std.specs.Prelude.{◌≡◌, ℕ, List, IfSome};
    ghost use Rattle.md5.specs.Md5.{md5};

    ghost Value = { List ℕ };

    ghost view = { λ l. l.bytes.items };

    ghost invariant = { λ l. IfSome l.checksum (λ sum. sum ≡ md5 l.bytes.items) };
}

impl LongBytes {
    /// These bytes without a checksum.
    pub(crate) fn new(bytes: Vec<u8>) -> LongBytes
        ensures { result ≡ bytes.items }
    {
        LongBytes {
            bytes,
            checksum: None,
        }
    }

    /// These bytes with their checksum.
    pub(crate) fn summed(bytes: Vec<u8>, checksum: Digest) -> LongBytes
        requires { checksum ≡ md5 bytes.items }
        ensures { result ≡ bytes.items }
    {
        LongBytes {
            bytes,
            checksum: Some(checksum),
        }
    }

    /// The bytes.
    pub(crate) fn as_slice(&self) -> &[u8]
        ensures { result.now ≡ self.now }
    {
        &self.bytes
    }

    /// Their checksum, if it is kept.
    pub(crate) fn checksum(&self) -> Option<Digest>
        ensures { IfSome result (λ sum. sum ≡ md5 self.now) }
    {
        self.checksum
    }
}
