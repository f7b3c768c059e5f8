//! What the types of a node's path and properties keep.
ghost use Rattle.std.specs.Prelude.{All, IsUtf8};
ghost use Rattle.std.specs.Map.{keys_of};
ghost use Rattle.svn_types.specs.Names.{IsName, IsPropName};
ghost use Rattle.svn_types.specs.Pairs.{InNameOrder};
ghost use Rattle.law_dump.specs.Laws.{IsPath};

use svn_types::{Name, Props, RelPath};

fn names_are_lawful(names: &[Name])
    ensures names { All IsName names.now }
    ensures texts { All IsUtf8 names.now }
{
    for name in names {
        let _text = name.as_str();
    }
}

/// A path has lawful names, and few enough.
pub(crate) fn path_is_lawful(path: &RelPath)
    ensures { IsPath path.now }
{
    names_are_lawful(path.components());
}

/// Properties have lawful names, in their order.
pub(crate) fn props_are_lawful(props: &Props)
    ensures names { All IsPropName (keys_of props.now) }
    ensures order { InNameOrder props.now }
{
    let _pairs = props.iter();
    for (name, _value) in props.as_map() {
        let _text = name.as_str();
    }
}
