// The nodes of a list, in their printed form.
use crate::words::{path, revision, text, word};
use std::alloc::Global;
use std::test::Fail;
use svn_model::BaseNode;
use svn_types::{Props, RelPath};

fn file(alloc: Global, line: &str) -> Result<BaseNode, Fail> {
    let repos_path = path(alloc, line, 3)?;
    let text = text(alloc, line, 4)?;
    Ok(BaseNode::File {
        rev: revision(line, 2),
        repos_path,
        text,
        props: Props::new(alloc),
    })
}

fn directory(alloc: Global, line: &str) -> Result<BaseNode, Fail> {
    let repos_path = path(alloc, line, 3)?;
    Ok(BaseNode::Dir {
        rev: revision(line, 2),
        repos_path,
        complete: word(line, 4).is_empty(),
        props: Props::new(alloc),
    })
}

fn base_node(alloc: Global, line: &str) -> Result<BaseNode, Fail> {
    match word(line, 1) {
        "file" => file(alloc, line),
        "dir" => directory(alloc, line),
        _ => Ok(BaseNode::NotPresent),
    }
}

fn node(alloc: Global, line: &str) -> Result<(RelPath, BaseNode), Fail> {
    let node = base_node(alloc, line)?;
    let path = path(alloc, line, 0)?;
    Ok((path, node))
}

// The nodes of lines with `; ` between two.
pub(crate) fn nodes(alloc: Global, lines: &str) -> Result<Vec<(RelPath, BaseNode)>, Fail> {
    let mut nodes = Vec::new(alloc);
    if lines.is_empty() {
        return Ok(nodes);
    }
    for line in lines.split("; ") {
        nodes.push(node(alloc, line)?)?;
    }
    Ok(nodes)
}
