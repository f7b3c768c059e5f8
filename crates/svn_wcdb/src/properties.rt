//! Properties, which a row has as a list of names and values.
ghost use Rattle.std.specs.Prelude.{◌≡◌, ◌<◌, length, IfOk, Some};
ghost use Rattle.std.specs.Option.{option_copied};
ghost use Rattle.svn_types.specs.NameFaults.{prop_name_fault};
ghost use Rattle.svn_wcdb.specs.Reading.{Gives};
ghost use Rattle.svn_wcdb.specs.Skels.{item_at};
ghost use Rattle.svn_wcdb.specs.Properties.{named, pair_at, props_in, list_props, props_of};

use crate::fault::{Reason, WcdbFault};
use crate::skel::{is_end, next_atom};
use std::alloc::Global;
use svn_types::{PathFault, PropName, Props, Text};

fn read_name(alloc: Global, name: &[u8]) -> Result<PropName, WcdbFault>
    ensures { Gives (λ n. n) result (named (prop_name_fault name.now) name.now) }
{
    match PropName::from_bytes(alloc, name) {
        Ok(name) => Ok(name),
        Err(PathFault::Memory) => Err(WcdbFault::Memory),
        Err(fault) => Err(WcdbFault::Refused(Reason::BadPropName(fault))),
    }
}

// A name with its value, and the bytes after them.
fn read_pair(alloc: Global, list: &[u8]) -> Result<(PropName, Text, &[u8]), WcdbFault>
    ensures parts { Gives (λ x. ((x.0, Some x.1), x.2.now)) result (pair_at (item_at list.now)) }
    ensures shorter { IfOk result (λ x. length x.2.now < length list.now) }
{
    let Some((name, after)) = next_atom(list) else {
        return Err(WcdbFault::Refused(Reason::BadProperties));
    };
    let Some((value, rest)) = next_atom(after) else {
        return Err(WcdbFault::Refused(Reason::BadProperties));
    };
    let name = read_name(alloc, name)?;
    let value = Text::from_slice(alloc, value)?;
    Ok((name, value, rest))
}

// The properties of a list, whose first parenthesis was read.
fn read_pairs(alloc: Global, list: &[u8]) -> Result<Props, WcdbFault>
    ensures { Gives (λ props. props) result (props_in list.now) }
{
    let mut props = Props::new(alloc);
    let mut rest = list;
    'pairs: while !is_end(rest) {
        let (name, value, after) = read_pair(alloc, rest)?;
        props.insert(name, value)?;
        rest = after;
    }
    Ok(props)
}

fn read_list(alloc: Global, bytes: &[u8]) -> Result<Props, WcdbFault>
    ensures { Gives (λ props. props) result (list_props bytes.now) }
{
    match bytes {
        [] => Ok(Props::new(alloc)),
        [b'(', list @ ..] => read_pairs(alloc, list),
        _ => Err(WcdbFault::Refused(Reason::BadProperties)),
    }
}

/// Reads properties; there are none where the column is NULL or has no byte. Of a name that comes twice the last value counts, as in Subversion.
pub(crate) fn read_props(alloc: Global, column: Option<&[u8]>) -> Result<Props, WcdbFault>
    ensures { Gives (λ props. props) result (props_of (option_copied column.entry)) }
{
    match column {
        None => Ok(Props::new(alloc)),
        Some(bytes) => read_list(alloc, bytes),
    }
}
