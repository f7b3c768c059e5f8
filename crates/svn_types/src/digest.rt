//! Checksums: MD5 and SHA-1.
ghost use Rattle.std.specs.Prelude.{◌≡◌, ◌*◌, ℕ, Some};
ghost use Rattle.md5.specs.Md5.{md5};
ghost use Rattle.sha1.specs.Sha1.{sha1};
ghost use Rattle.svn_types.specs.Digests.{digest_word};

use md5::{Digest as Hasher, Md5};
use sha1::Sha1;
use std::marker::Model;
use std::{fmt, str};

/// The MD5 checksum of a text (RFC 1321), its 16 bytes in the order in which they are printed. A contract sees it as its bytes.
#[derive(Clone, Copy, Debug, PartialEq, Eq)]
pub struct Digest(pub [u8; 16]);

impl Model for Digest {
    ghost use Rattle.std.specs.Prelude.{ℕ, List};

    ghost Value = { List ℕ };

    ghost view = { λ d. d.0 };

    ghost inverse = { λ bytes. record { 0 = bytes } };
}

impl Digest {
    /// The checksum of these bytes. It takes no memory.
    pub fn of(bytes: &[u8]) -> Digest
        ensures { result ≡ md5 bytes.now }
    {
        Digest(Md5::digest(bytes))
    }
}

/// The SHA-1 checksum of a text (FIPS 180-4), its 20 bytes in the order in which they are printed. A contract sees it as its bytes.
#[derive(Clone, Copy, Debug, PartialEq, Eq)]
pub struct Sha1Sum(pub [u8; 20]);

impl Model for Sha1Sum {
    ghost use Rattle.std.specs.Prelude.{ℕ, List};

    ghost Value = { List ℕ };

    ghost view = { λ d. d.0 };

    ghost inverse = { λ bytes. record { 0 = bytes } };
}

impl Sha1Sum {
    /// The checksum of these bytes. It takes no memory.
    pub fn of(bytes: &[u8]) -> Sha1Sum
        ensures { result ≡ sha1 bytes.now }
    {
        Sha1Sum(Sha1::digest(bytes))
    }
}

// The digits of a checksum of `N` bytes, so that one write prints them. There are `D`: two of each byte.
fn digits_of<const N: usize, const D: usize>(bytes: &[u8; N]) -> [u8; D]
    requires { D ≡ 2 * N }
    ensures { result ≡ digest_word bytes.now }
{
    let mut digits = [0; D];
    // there is room for two digits of each byte
    let _answer = hex::encode_to_slice(&bytes[..], &mut digits);
    digits
}

/// A checksum is printed as 32 lower-case hexadecimal digits.
impl fmt::Display for Digest {
    ghost output = { λ d. Some (digest_word d) };

    fn fmt<W: fmt::Write>(&self, f: &mut fmt::Formatter<W>) -> fmt::Result {
        let digits: [u8; 32] = digits_of(&self.0);
        // they are ASCII
        f.write_str(unsafe { str::from_utf8_unchecked(&digits) })
    }
}

/// A checksum is printed as 40 lower-case hexadecimal digits.
impl fmt::Display for Sha1Sum {
    ghost output = { λ d. Some (digest_word d) };

    fn fmt<W: fmt::Write>(&self, f: &mut fmt::Formatter<W>) -> fmt::Result {
        let digits: [u8; 40] = digits_of(&self.0);
        // they are ASCII
        f.write_str(unsafe { str::from_utf8_unchecked(&digits) })
    }
}
