//! The names in a directory, in byte order.
ghost use Rattle.std.specs.Prelude.{◌≡◌, ◌||◌, ℕ, List, bytes_eq, IfOk, OnOk};
ghost use Rattle.std.specs.BTreeSet.{contains};
ghost use Rattle.std.specs.List.Sorted.{IsStrictlySortedBy};
ghost use Rattle.svn_types.specs.Names.{name_cmp};

use std::alloc::{AllocError, Global};
use std::collections::BTreeSet;
use svn_types::Name;

/// Adds a name to others.
pub(crate) fn add_name(names: &mut BTreeSet<Name>, name: Name) -> Result<(), AllocError>
    ensures { OnOk result ((n : List ℕ) → contains name_cmp names.new n ≡ (bytes_eq name n || contains name_cmp names.old n)) }
{
    names.insert(name)?;
    Ok(())
}

/// The names in their order.
pub(crate) fn in_order(alloc: Global, names: BTreeSet<Name>) -> Result<Vec<Name>, AllocError>
    ensures names { IfOk result (λ v. v.items ≡ names.keys) }
    ensures ascending { IfOk result (λ v. IsStrictlySortedBy name_cmp v.items) }
{
    let _count = names.len();
    names.into_iter().collect(alloc)
}
