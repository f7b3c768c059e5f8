//! The first bytes of what is read as a dump: whether it is packed.

ghost use Rattle.std.specs.Prelude.{◌≤◌, IfOk};

use crate::fault::Fault;
use std::alloc::Global;
use std::fmt;
use std::io::{ErrorKind, Read};

// How many bytes are looked at.
const FRONT: usize = 6;

// What a packed file begins with, and what packs it so.
const PACKED: &[(&[u8], Packer)] = &[
    (b"\x1f\x8b", Packer::Gzip),
    (b"BZh", Packer::Bzip2),
    (b"\xfd7zXZ\0", Packer::Xz),
    (b"\x28\xb5\x2f\xfd", Packer::Zstd),
];

/// A program that packs files.
#[derive(Clone, Copy)]
pub(crate) enum Packer {
    Gzip,
    Bzip2,
    Xz,
    Zstd,
}

impl fmt::Display for Packer {
    fn fmt<W: fmt::Write>(&self, f: &mut fmt::Formatter<W>) -> fmt::Result {
        f.write_str(match self {
            Packer::Gzip => "gzip",
            Packer::Bzip2 => "bzip2",
            Packer::Xz => "xz",
            Packer::Zstd => "zstd",
        })
    }
}

/// The first bytes of a dump, or all of one that is shorter.
#[derive(Drop)]
pub(crate) struct DumpFront {
    bytes: Vec<u8>,
}

// Reads up to so many bytes.
fn fill<R: Read>(input: &mut R, buffer: &mut [u8; FRONT]) -> Result<usize, Fault>
    ensures filled { IfOk result (λ count. count ≤ 6) }
{
    let mut filled = 0usize;
    // each read but the last gives at least one byte
    'reads: for _ in 0..FRONT {
        match input.read(&mut buffer[filled..]) {
            Ok(0) => break,
            Ok(count) => filled = filled.saturating_add(count).min(FRONT),
            Err(error) if error.kind() == ErrorKind::Interrupted => {}
            Err(error) => return Err(Fault::Unread(error)),
        }
    }
    Ok(filled)
}

impl DumpFront {
    /// Reads them.
    pub(crate) fn read<R: Read>(alloc: Global, input: &mut R) -> Result<DumpFront, Fault> {
        let mut buffer = [0u8; FRONT];
        let filled = fill(input, &mut buffer)?;
        let mut bytes = Vec::new(alloc);
        bytes.extend_from_slice(&buffer[..filled])?;
        Ok(DumpFront { bytes })
    }

    /// They must be read before what is left.
    pub(crate) fn bytes(&self) -> &[u8] {
        self.bytes.as_slice()
    }

    /// Refuses what is packed.
    pub(crate) fn refuse_packed(&self) -> Result<(), Fault> {
        for (magic, packer) in PACKED {
            if self.bytes().starts_with(magic) {
                return Err(Fault::Packed(*packer));
            }
        }
        Ok(())
    }
}
