//! The working copies.

use anyhow::Result;
use std::alloc::Global;
use svn_dump::{Texts, kept_text};
use svn_types::{PropName, Props, RelPath, Rev, Text};
use svn_wc::{BaseNode, WorkingCopy};

// What a node is; a file has its text.
#[derive(Clone, Copy)]
enum Kind {
    Directory,
    File(&'static str),
    // One that has a property.
    FileWithProp(&'static str),
}

// A node.
#[derive(Clone, Copy)]
struct Node {
    path: &'static str,
    rev: u64,
    repos_path: &'static str,
    kind: Kind,
}

// As the server has it.
const TRUE: [Node; 4] = [
    Node {
        path: "",
        rev: 1,
        repos_path: "",
        kind: Kind::Directory,
    },
    Node {
        path: "d",
        rev: 1,
        repos_path: "d",
        kind: Kind::Directory,
    },
    Node {
        path: "d/f",
        rev: 1,
        repos_path: "d/f",
        kind: Kind::FileWithProp("hi\n"),
    },
    Node {
        path: "g",
        rev: 1,
        repos_path: "g",
        kind: Kind::File("other\n"),
    },
];

// A directory in the place of a file, a file of a revision that isn't there, and one with another text.
const UNTRUE: [Node; 4] = [
    Node {
        path: "",
        rev: 1,
        repos_path: "",
        kind: Kind::Directory,
    },
    Node {
        path: "d",
        rev: 1,
        repos_path: "g",
        kind: Kind::Directory,
    },
    Node {
        path: "d/f",
        rev: 9,
        repos_path: "d/f",
        kind: Kind::FileWithProp("hi\n"),
    },
    Node {
        path: "g",
        rev: 1,
        repos_path: "g",
        kind: Kind::File("hi\n"),
    },
];

fn path_of(alloc: Global, text: &str) -> Result<RelPath> {
    if text.is_empty() {
        return Ok(RelPath::root(alloc));
    }
    Ok(RelPath::parse(alloc, text)?)
}

fn props_of(alloc: Global, has_prop: bool) -> Result<Props> {
    let mut props = Props::new(alloc);
    if has_prop {
        props.insert(PropName::parse(alloc, "p")?, Text::from_str(alloc, "v")?)?;
    }
    Ok(props)
}

fn file_of(alloc: Global, node: &Node, text: &str, has_prop: bool) -> Result<BaseNode> {
    Ok(BaseNode::File {
        rev: Rev(node.rev),
        repos_path: path_of(alloc, node.repos_path)?,
        text: kept_text(alloc, Texts::Md5, text.as_bytes())?,
        props: props_of(alloc, has_prop)?,
    })
}

fn node_of(alloc: Global, node: &Node) -> Result<BaseNode> {
    match node.kind {
        Kind::Directory => Ok(BaseNode::Dir {
            rev: Rev(node.rev),
            repos_path: path_of(alloc, node.repos_path)?,
            complete: true,
            props: Props::new(alloc),
        }),
        Kind::File(text) => file_of(alloc, node, text, false),
        Kind::FileWithProp(text) => file_of(alloc, node, text, true),
    }
}

fn copy_of(alloc: Global, nodes: &[Node]) -> Result<WorkingCopy> {
    let mut made = Vec::new(alloc);
    for node in nodes {
        made.push((path_of(alloc, node.path)?, node_of(alloc, node)?))?;
    }
    Ok(WorkingCopy::from_nodes(alloc, made)?)
}

/// One that is true.
pub(crate) fn true_copy(alloc: Global) -> Result<WorkingCopy> {
    copy_of(alloc, &TRUE)
}

/// One that isn't, in three places.
pub(crate) fn untrue_copy(alloc: Global) -> Result<WorkingCopy> {
    copy_of(alloc, &UNTRUE)
}
