//! Properties, as a row has them.
ghost use Rattle.std.specs.Prelude.{◌≡◌, ◌++◌, OnOk};
ghost use Rattle.std.specs.List.{flat_map};
ghost use Rattle.svn_wcrows.specs.Skels.{pair_bytes, props_bytes};

use crate::skel::push_atom;
use std::alloc::AllocError;
use svn_types::{PropName, Props, Text};

fn push_pair(out: &mut Vec<u8>, name: &PropName, value: &Text) -> Result<(), AllocError>
    ensures { OnOk result (out.new.items ≡ out.old.items ++ pair_bytes (name.now, value.now)) }
{
    push_atom(out, name.as_str().as_bytes())?;
    push_atom(out, value.as_slice())
}

fn push_pairs(out: &mut Vec<u8>, props: &Props) -> Result<(), AllocError>
    ensures { OnOk result (out.new.items ≡ out.old.items ++ flat_map pair_bytes props.now) }
{
    for (name, value) in props.as_map() {
        push_pair(out, name, value)?;
    }
    Ok(())
}

/// Writes properties at the end, as the column `properties` of NODES has them: a list of names and values, in the order of the names. After an error its first
/// bytes may be there.
pub fn push_props(out: &mut Vec<u8>, props: &Props) -> Result<(), AllocError>
    ensures { OnOk result (out.new.items ≡ out.old.items ++ props_bytes props.now) }
{
    out.push(b'(')?;
    push_pairs(out, props)?;
    Ok(out.push(b')')?)
}
