//! Paths of several names that lie in one block with their key.
ghost use Rattle.std.specs.Prelude.{◌≡◌, ◌+◌, ◌<◌, ◌≤◌, ◌++◌, length, take, true, IfOk, OnOk};
ghost use Rattle.svn_types.specs.PathKeys.{path_key, is_plain_path};

use crate::name::Name;
use crate::short_key::ShortKey;
use std::alloc::AllocError;
use std::array;
use std::marker::Model;

/// Up to `N` names, and beside them their key of at most `K` bytes. Both are below 256. A contract sees it as the list of the names.
#[derive(Drop)]
pub(crate) struct PathBlock<const N: usize, const K: usize> {
    // The count and the key come first: comparing, cloning or dropping a path touches only the first bytes of its block.
    count: u8,
    key: ShortKey<K>,
    // Blanks come after the names.
    names: [Name; N],
}

impl<const N: usize, const K: usize> Model for PathBlock<N, K> {
    ghost use Rattle.std.specs.Prelude.{◌≡◌, ◌≤◌, ℕ, List, length, take, true};
    ghost use Rattle.svn_types.specs.PathKeys.{path_key, is_plain_path};

    ghost Value = { List (List ℕ) };

    ghost view = { λ p. take p.count p.names };

    ghost invariant = { λ p. (p.count ≤ N) × (length p.names ≡ N) × (is_plain_path (take p.count p.names) ≡ true) × (p.key ≡ path_key (take p.count p.names)) };
}

// Writes names over those from `start` on, each in its final place: names passed by value are copied in pieces, which stalls the processor.
fn write_at<const N: usize>(
    room: &mut [Name; N],
    start: usize,
    names: &[Name],
) -> Result<(), AllocError>
    requires { start + length names.now ≤ N }
    ensures written { OnOk result (take (start + length names.now) room.new ≡ take start room.old ++ names.now) }
    ensures len { length room.new ≡ N }
{
    'name: for i in 0..names.len() {
        names[i].write_to(&mut room[start + i])?;
    }
    Ok(())
}

impl<const N: usize, const K: usize> PathBlock<N, K> {
    /// These names and those after them, which have this key. Inlined, so that the block is made in place.
    #[inline(always)]
    pub(crate) fn of(
        names: &[Name],
        more: &[Name],
        key: ShortKey<K>,
    ) -> Result<PathBlock<N, K>, AllocError>
        requires small { N < 256 }
        requires room { length names.now + length more.now ≤ N }
        requires key { key ≡ path_key (names.now ++ more.now) }
        requires plain { is_plain_path (names.now ++ more.now) ≡ true }
        ensures { IfOk result (λ p. p ≡ names.now ++ more.now) }
    {
        let mut block = PathBlock {
            count: 0,
            key: ShortKey::empty(),
            names: array::from_fn(|_| Name::blank()),
        };
        write_at(&mut block.names, 0, names)?;
        write_at(&mut block.names, names.len(), more)?;
        block.count = (names.len() + more.len()) as u8;
        block.key = key;
        Ok(block)
    }

    /// The names, from the root down.
    pub(crate) fn names(&self) -> &[Name]
        ensures { result.now ≡ self.now }
    {
        &self.names[..self.count as usize]
    }

    /// Their key.
    pub(crate) fn key(&self) -> &str
        ensures key { result.now ≡ path_key self.now }
        ensures plain { is_plain_path self.now ≡ true }
    {
        self.key.as_str()
    }
}
