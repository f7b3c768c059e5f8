//! Calls that are written by hand, and the lines of an update that makes them.

use self::Step::{
    AddDirectory, AddFile, CloseDirectory, CloseFile, Delete, GiveText, OpenDirectory, OpenFile,
    OpenRoot, SetDirProp, SetFileProp,
};
use anyhow::Result;
use std::alloc::Global;
use svn_editor::{Call, Token};
use svn_model::BaseNode;
use svn_types::{PropName, Props, RelPath, Rev, Text};
use svn_wc::WorkingCopy;

/// A call with a text in the place of its path. One that opens or adds a node takes the next token, 0, 1, 2 and so on; the others name it.
#[derive(Clone, Copy)]
enum Step {
    OpenRoot,
    Delete(&'static str),
    AddDirectory(&'static str),
    OpenDirectory(&'static str),
    AddFile(&'static str),
    OpenFile(&'static str),
    GiveText(u64),
    SetDirProp(u64),
    SetFileProp(u64),
    CloseDirectory(u64),
    CloseFile(u64),
}

/// Calls with their lines.
pub(crate) struct Row {
    /// What the row is about.
    pub(crate) name: &'static str,
    steps: &'static [Step],
    /// The lines of an update that makes its calls, in their order.
    pub(crate) lines: &'static str,
}

static ROWS: [Row; 6] = [
    Row {
        name: "properties of added nodes",
        steps: &[
            OpenRoot,
            AddDirectory("a"),
            SetDirProp(1),
            AddFile("a/f"),
            SetFileProp(2),
            GiveText(2),
            CloseFile(2),
            CloseDirectory(1),
            CloseDirectory(0),
        ],
        lines: "A    a\nA    a/f\n",
    },
    Row {
        name: "texts and properties of files",
        steps: &[
            OpenRoot,
            OpenFile("both"),
            SetFileProp(1),
            GiveText(1),
            CloseFile(1),
            OpenFile("props"),
            SetFileProp(2),
            CloseFile(2),
            OpenFile("same"),
            CloseFile(3),
            OpenFile("text"),
            GiveText(4),
            CloseFile(4),
            CloseDirectory(0),
        ],
        lines: "UU   both\n U   props\nU    text\n",
    },
    Row {
        name: "a node that is replaced",
        steps: &[
            OpenRoot,
            Delete("x"),
            AddFile("x"),
            GiveText(1),
            CloseFile(1),
            CloseDirectory(0),
        ],
        lines: "D    x\nA    x\n",
    },
    Row {
        name: "a text after all directories",
        steps: &[
            OpenRoot,
            SetDirProp(0),
            OpenDirectory("d"),
            OpenFile("d/f"),
            CloseDirectory(1),
            CloseDirectory(0),
            GiveText(2),
            CloseFile(2),
        ],
        lines: " U   .\nU    d/f\n",
    },
    Row {
        name: "a text in an incomplete directory",
        steps: &[
            OpenRoot,
            OpenDirectory("cut"),
            OpenFile("cut/f"),
            GiveText(2),
            CloseFile(2),
            CloseDirectory(1),
            CloseDirectory(0),
        ],
        lines: "U    cut/f\n U   cut\n",
    },
    Row {
        name: "changes beside an incomplete directory",
        steps: &[
            OpenRoot,
            Delete("a"),
            OpenDirectory("cut"),
            CloseDirectory(1),
            Delete("x"),
            CloseDirectory(0),
        ],
        lines: "D    a\nD    x\n",
    },
];

/// The rows.
pub(crate) fn rows() -> &'static [Row] {
    &ROWS
}

const REV: Rev = Rev(1);

// A directory with a property.
fn directory(alloc: Global, path: &str, complete: bool) -> Result<(RelPath, BaseNode)> {
    let mut props = Props::new(alloc);
    props.insert(PropName::parse(alloc, "p")?, Text::new(Vec::new(alloc)))?;
    Ok((
        RelPath::parse(alloc, path)?,
        BaseNode::Dir {
            rev: REV,
            repos_path: RelPath::parse(alloc, path)?,
            complete,
            props,
        },
    ))
}

/// The copy whose updates the rows are: `cut` is incomplete.
pub(crate) fn copy_of_rows(alloc: Global) -> Result<WorkingCopy> {
    let nodes = vec![in alloc;
        directory(alloc, "", true)?,
        directory(alloc, "cut", false)?,
    ]?;
    Ok(WorkingCopy::from_nodes(alloc, nodes)?)
}

// The directories above aren't looked at.
const PARENT: Token = Token(0);

// A call about the entry at a path.
fn entry_call(path: RelPath, step: Step, token: Token) -> Call {
    let (parent, base) = (PARENT, REV);
    match step {
        AddDirectory(_) => Call::AddDirectory {
            path,
            parent,
            token,
        },
        OpenDirectory(_) => Call::OpenDirectory {
            path,
            parent,
            base,
            token,
        },
        AddFile(_) => Call::AddFile {
            path,
            parent,
            token,
        },
        OpenFile(_) => Call::OpenFile {
            path,
            parent,
            base,
            token,
        },
        _ => Call::DeleteEntry {
            path,
            rev: REV,
            parent,
        },
    }
}

// A call about a node by its token.
fn change_call(alloc: Global, step: Step) -> Result<Call> {
    Ok(match step {
        GiveText(token) => Call::ApplyText {
            token: Token(token),
            base_md5: None,
            text: Text::new(Vec::new(alloc)),
        },
        SetDirProp(token) => Call::ChangeDirProp {
            token: Token(token),
            name: PropName::parse(alloc, "p")?,
            value: None,
        },
        SetFileProp(token) => Call::ChangeFileProp {
            token: Token(token),
            name: PropName::parse(alloc, "p")?,
            value: None,
        },
        CloseDirectory(token) => Call::CloseDirectory {
            token: Token(token),
        },
        CloseFile(token) => Call::CloseFile {
            token: Token(token),
            text_md5: None,
        },
        _ => Call::OpenRoot {
            base: REV,
            token: Token(0),
        },
    })
}

fn call_of(alloc: Global, step: Step, token: Token) -> Result<Call> {
    match step {
        Delete(path) | AddDirectory(path) | OpenDirectory(path) | AddFile(path) | OpenFile(path) =>
            { Ok(entry_call(RelPath::parse(alloc, path)?, step, token)) }
        _ => change_call(alloc, step),
    }
}

fn takes_token(step: Step) -> bool {
    matches!(
        step,
        OpenRoot | AddDirectory(_) | OpenDirectory(_) | AddFile(_) | OpenFile(_)
    )
}

/// The calls of a row.
pub(crate) fn calls_of(alloc: Global, row: &Row) -> Result<Vec<Call>> {
    let mut calls = Vec::new(alloc);
    let mut next = 0u64;
    for step in row.steps {
        calls.push(call_of(alloc, *step, Token(next))?)?;
        if takes_token(*step) {
            next = next.wrapping_add(1);
        }
    }
    Ok(calls)
}
