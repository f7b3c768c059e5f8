//! What each record has, since its types keep it so.
ghost use Rattle.std.specs.Prelude.{◌≡◌, ◌≤◌, ◌<◌, ◌^◌, length, All, IsUtf8, IfSome};
ghost use Rattle.std.specs.Map.{keys_of};
ghost use Rattle.svn_types.specs.Names.{IsName, IsPropName};
ghost use Rattle.svn_types.specs.Pairs.{InNameOrder};
ghost use Rattle.law_dump.specs.Laws.{IsPath, IsSource, IsPropSection, IsSum, IsTextSection, IsNodeRecord};

use svn_dump::{CopySource, NodeRecord, PropSection, Sha1Sum, TextDelta, TextSection};
use svn_types::{Digest, Name, PropChange, Props, RelPath, Rev};

fn names_are_lawful(names: &[Name])
    ensures names { All IsName names.now }
    ensures texts { All IsUtf8 names.now }
{
    for name in names {
        let _text = name.as_str();
    }
}

fn path_is_lawful(path: &RelPath)
    ensures { IsPath path.now }
{
    names_are_lawful(path.components());
}

fn rev_is_small(rev: Rev)
    ensures { rev < 2 ^ 64 }
{
    let _number = rev.0;
}

fn source_is_lawful(source: &Option<CopySource>)
    ensures { IfSome source.now IsSource }
{
    if let Some(source) = source {
        rev_is_small(source.rev);
        path_is_lawful(&source.path);
    }
}

fn props_are_lawful(props: &Props)
    ensures names { All IsPropName (keys_of props.now) }
    ensures order { InNameOrder props.now }
{
    let _pairs = props.iter();
    for (name, _value) in props.as_map() {
        let _text = name.as_str();
    }
}

fn changes_are_lawful(changes: &[PropChange])
    ensures { All (λ c. IsPropName c.0) changes.now }
{
    for (name, _value) in changes {
        let _text = name.as_str();
    }
}

fn prop_section_is_lawful(section: &PropSection)
    ensures { IsPropSection section.now }
{
    match section {
        PropSection::Whole(props) => props_are_lawful(props),
        PropSection::Delta(changes) => changes_are_lawful(changes.as_slice()),
    }
}

fn md5_is_lawful(sum: Option<Digest>)
    ensures { IfSome sum (IsSum 16) }
{
    if let Some(sum) = sum {
        let _bytes = sum.0;
    }
}

fn sha1_is_lawful(sum: Option<Sha1Sum>)
    ensures { IfSome sum (IsSum 20) }
{
    if let Some(sum) = sum {
        let _bytes = sum.0;
    }
}

fn delta_is_lawful(delta: &TextDelta)
    ensures base_md5 { IfSome delta.now.base_md5 (IsSum 16) }
    ensures base_sha1 { IfSome delta.now.base_sha1 (IsSum 20) }
    ensures md5 { IfSome delta.now.md5 (IsSum 16) }
    ensures sha1 { IfSome delta.now.sha1 (IsSum 20) }
{
    md5_is_lawful(delta.base_md5);
    sha1_is_lawful(delta.base_sha1);
    md5_is_lawful(delta.md5);
    sha1_is_lawful(delta.sha1);
}

fn text_section_is_lawful(section: &Option<TextSection>)
    ensures { IfSome section.now IsTextSection }
{
    if let Some(TextSection::Delta(delta)) = section {
        delta_is_lawful(delta);
    }
}

/// Each node's record is lawful: what is left of `IsWritable` is that its lengths are within the limits. It looks at each name of the record, and
/// takes no memory.
pub fn node_is_lawful(node: &NodeRecord)
    ensures { IsNodeRecord node.now }
{
    path_is_lawful(&node.path);
    source_is_lawful(&node.source);
    if let Some(section) = &node.props {
        prop_section_is_lawful(section);
    }
    text_section_is_lawful(&node.text);
}
