//! Changes of properties.
ghost use Rattle.std.specs.Prelude.{◌≡◌, IfOk};
ghost use Rattle.std.specs.Option.{option_copied};
ghost use Rattle.svn_types.specs.Props.{changes_between};

use crate::prop_name::PropName;
use crate::props::Props;
use crate::props_left::PropsLeft;
use crate::text::Text;
use std::alloc::{AllocError, Global};

/// A change of one property: its name, and its new value or None for a removal.
pub type PropChange = (PropName, Option<Text>);

fn copied(value: Option<&Text>) -> Result<Option<Text>, AllocError>
    ensures { IfOk result (λ v. v ≡ option_copied value.entry) }
{
    match value {
        Some(text) => Ok(Some(text.clone()?)),
        None => Ok(None),
    }
}

impl Props {
    /// The changes that lead from these properties to the new ones: one for each name whose value differs, in byte order of the names.
    /// AllocError if an allocation fails.
    pub fn changes_to(&self, alloc: Global, new: &Props) -> Result<Vec<PropChange>, AllocError>
        ensures { IfOk result (λ v. v.items ≡ changes_between self.now new.now) }
    {
        // most nodes have none
        if self.is_empty() && new.is_empty() {
            return Ok(Vec::new(alloc));
        }
        let mut changes = Vec::new(alloc);
        let mut left = PropsLeft::of(self, new);
        'names: while let Some((name, was, value)) = left.take() {
            if was != value {
                changes.push((name.clone()?, copied(value)?))?;
            }
        }
        Ok(changes)
    }
}
