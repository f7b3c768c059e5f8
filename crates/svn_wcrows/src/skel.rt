//! Atoms in Subversion's notation for lists (skel.h).
ghost use Rattle.std.specs.Prelude.{◌≡◌, ◌++◌, OnOk};
ghost use Rattle.svn_wcrows.specs.Skels.{atom_bytes};

use itoa::Buffer;
use std::alloc::AllocError;

/// Writes an atom at the end, after a space: the number of its bytes, a space, and the bytes. After an error its first bytes may be there.
pub(crate) fn push_atom(out: &mut Vec<u8>, atom: &[u8]) -> Result<(), AllocError>
    ensures { OnOk result (out.new.items ≡ out.old.items ++ atom_bytes atom.now) }
{
    let mut buffer = Buffer::new();
    out.push(b' ')?;
    out.extend_from_slice(buffer.format(atom.len()).as_bytes())?;
    out.push(b' ')?;
    out.extend_from_slice(atom)
}
