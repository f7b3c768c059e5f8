//! The lines that an update prints.
ghost use Rattle.std.specs.Prelude.{◌≡◌, ℕ, ◌++◌, ◌∷◌, [], List, IfOk, OnOk, Some, nat_eq, nat_lt, slice_get};
ghost use Rattle.std.specs.Option.{option_map};
ghost use Rattle.svn_editor.specs.declared.call.Call.{Call};
ghost use Rattle.svn_model.specs.Nodes.{get_in};
ghost use Rattle.svn_audit.specs.Lines.{line_of, changes, has_old_props, changed_line, opened_line, update_lines, no_change_no_line, lines_have_paths_of_calls};
ghost use Rattle.svn_audit.specs.Printing.{node_letter, props_letter, line_text};
ghost use Rattle.svn_audit.specs.NotedLines.{line_of_node, new_node, with_text, with_props, edited_after, IsNoted, KnowsEdits};

use std::alloc::{AllocError, Global};
use std::fmt;
use svn_editor::{Call, Token};
use svn_model::BaseNode;
use svn_types::RelPath;
use svn_wc::WorkingCopy;

/// What an update does to a node.
#[derive(Clone, Copy, Debug, PartialEq, Eq)]
pub enum NodeChange {
    /// Nothing, but its properties may change.
    Unchanged,
    /// It is added.
    Added,
    /// It is deleted.
    Deleted,
    /// A file gets another text.
    Updated,
}

/// A line that `svn update` prints of a node: `A`, `D` or `U` in the first column, and `U` in the second where properties of a node change that was
/// there before. It prints `A    lib/a`: the two columns, three spaces and the path. No name in a path has a control character.
#[derive(Clone, Debug, PartialEq, Eq, Drop)]
pub struct UpdateLine {
    /// What happens to the node.
    pub node: NodeChange,
    /// Whether properties of a node change that was there before.
    pub props: bool,
    /// Its path in the copy.
    pub path: RelPath,
}

impl NodeChange {
    // What is printed in the first column.
    fn letter(self) -> &'static str
        ensures { result.now ≡ node_letter self }
    {
        match self {
            NodeChange::Unchanged => " ",
            NodeChange::Added => "A",
            NodeChange::Deleted => "D",
            NodeChange::Updated => "U",
        }
    }
}

// What is printed in the second column.
fn props_letter(props: bool) -> &'static str
    ensures { result.now ≡ props_letter props }
{
    if props { "U" } else { " " }
}

impl fmt::Display for UpdateLine {
    ghost output = { λ l. Some (line_text l) };

    fn fmt<W: fmt::Write>(&self, f: &mut fmt::Formatter<W>) -> fmt::Result {
        let (node, props, path) = (self.node.letter(), props_letter(self.props), &self.path);
        write!(f, "{node}{props}   {path}")
    }
}

/// A node that a call opened or added.
#[derive(Drop)]
struct Opened {
    /// The path at which it was opened; none if it was added: then its line came at the add.
    path: Option<RelPath>,
    /// Whether it was given a text since.
    text: bool,
    /// Whether its properties were changed since.
    props: bool,
}

/// What is noted of the calls so far.
#[derive(Drop)]
struct Noted {
    /// Each node that was opened or added, by its token: tokens are 0, 1, 2 and so on.
    nodes: Vec<Opened>,
    /// How many nodes were opened or added before the last call that changes something: each of them has a change since.
    edited: usize,
    lines: Vec<UpdateLine>,
}

// Whether a call deletes, adds or changes.
fn is_change(call: &Call) -> bool
    ensures { result ≡ changes call.now }
{
    match call {
        Call::DeleteEntry { .. } | Call::AddDirectory { .. } | Call::AddFile { .. } => true,
        Call::ChangeDirProp { .. } | Call::ChangeFileProp { .. } | Call::ApplyText { .. } => true,
        Call::SetTargetRevision { .. } | Call::OpenRoot { .. } | Call::OpenDirectory { .. } =>
            false,
        Call::OpenFile { .. } | Call::CloseDirectory { .. } | Call::CloseFile { .. } => false,
        Call::CloseEdit | Call::AbortEdit => false,
    }
}

// Whether a copy has an incomplete directory with properties at a path.
fn has_old_props(copy: &WorkingCopy, path: &RelPath) -> bool
    ensures { result ≡ has_old_props (get_in copy.now path.now) }
{
    match copy.get(path) {
        Some(
            BaseNode::Dir {
                complete,
                props,
                ..
            },
        ) => !*complete && !props.is_empty(),
        Some(_) | None => false,
    }
}

fn begin(nodes: &mut Vec<Opened>, path: Option<RelPath>) -> Result<(), AllocError>
    ensures { OnOk result (nodes.new.items ≡ nodes.old.items ++ new_node path ∷ []) }
{
    nodes.push(Opened {
        path,
        text: false,
        props: false,
    })?;
    Ok(())
}

fn set_text(nodes: &mut Vec<Opened>, token: Token)
    ensures { (t : ℕ) → slice_get nodes.new.items t ≡ option_map (with_text (nat_eq token t)) (slice_get nodes.old.items t) }
{
    let place = token.0 as usize;
    if place < nodes.len() {
        nodes[place].text = true;
    }
}

fn set_props(nodes: &mut Vec<Opened>, token: Token)
    ensures { (t : ℕ) → slice_get nodes.new.items t ≡ option_map (with_props (nat_eq token t)) (slice_get nodes.old.items t) }
{
    let place = token.0 as usize;
    if place < nodes.len() {
        nodes[place].props = true;
    }
}

fn push_line(
    lines: &mut Vec<UpdateLine>,
    node: NodeChange,
    path: &RelPath,
) -> Result<(), AllocError>
    ensures { OnOk result (lines.new.items ≡ lines.old.items ++ line_of node path.now ∷ []) }
{
    lines.push(UpdateLine {
        node,
        props: false,
        path: path.clone()?,
    })?;
    Ok(())
}

// The line of a node whose text or properties were changed.
fn push_changed(
    lines: &mut Vec<UpdateLine>,
    path: &RelPath,
    text: bool,
    props: bool,
) -> Result<(), AllocError>
    ensures { OnOk result (lines.new.items ≡ lines.old.items ++ changed_line path.now text props) }
{
    if text || props {
        let node = if text {
            NodeChange::Updated
        } else {
            NodeChange::Unchanged
        };
        lines.push(UpdateLine {
            node,
            props,
            path: path.clone()?,
        })?;
    }
    Ok(())
}

// The line of a node at its close, if it was there before.
fn push_opened(
    lines: &mut Vec<UpdateLine>,
    copy: &WorkingCopy,
    opened: &Opened,
    edited: bool,
) -> Result<(), AllocError>
    ensures { OnOk result (lines.new.items ≡ lines.old.items ++ opened_line (get_in copy.now) opened.now.path opened.now.text opened.now.props edited) }
{
    match &opened.path {
        Some(path) => {
            let props = opened.props || (edited && has_old_props(copy, path));
            push_changed(lines, path, opened.text, props)
        }
        None => Ok(()),
    }
}

impl Noted {
    fn close(&mut self, copy: &WorkingCopy, token: Token) -> Result<(), AllocError>
        ensures nodes { self.new.nodes.items ≡ self.old.nodes.items }
        ensures lines { OnOk result (self.new.lines.items ≡ self.old.lines.items ++ line_of_node (get_in copy.now) (nat_lt token self.old.edited) (slice_get self.old.nodes.items token)) }
    {
        let place = token.0 as usize;
        let edited = place < self.edited;
        match self.nodes.get(place) {
            Some(opened) => push_opened(&mut self.lines, copy, opened, edited),
            None => Ok(()),
        }
    }

    fn open(&mut self, path: &RelPath) -> Result<(), AllocError>
        ensures nodes { OnOk result (self.new.nodes.items ≡ self.old.nodes.items ++ new_node (Some path.now) ∷ []) }
        ensures lines { self.new.lines.items ≡ self.old.lines.items }
    {
        begin(&mut self.nodes, Some(path.clone()?))
    }

    // An added node has its line before those of what is below it.
    fn add(&mut self, path: &RelPath) -> Result<(), AllocError>
        ensures nodes { OnOk result (self.new.nodes.items ≡ self.old.nodes.items ++ new_node None ∷ []) }
        ensures lines { OnOk result (self.new.lines.items ≡ self.old.lines.items ++ line_of NodeChange.Added path.now ∷ []) }
    {
        push_line(&mut self.lines, NodeChange::Added, path)?;
        begin(&mut self.nodes, None)
    }

    // How many nodes were opened or added before the last change, this call included.
    fn edited_after(&self, call: &Call) -> usize
        ensures { result ≡ edited_after self.now call.now }
    {
        if is_change(call) {
            self.nodes.len()
        } else {
            self.edited
        }
    }

    // Notes a call, but for whether it is a change.
    fn take(&mut self, alloc: Global, copy: &WorkingCopy, call: &Call) -> Result<(), AllocError>
        ensures { OnOk result ((calls : List Call) → IsNoted (get_in copy.now) calls self.old → KnowsEdits calls self.old.edited → IsNoted (get_in copy.now) (calls ++ call.now ∷ []) self.new) }
    {
        match call {
            Call::OpenRoot { .. } => begin(&mut self.nodes, Some(RelPath::root(alloc))),
            Call::OpenDirectory { path, .. } => self.open(path),
            Call::OpenFile { path, .. } => self.open(path),
            Call::AddDirectory { path, .. } => self.add(path),
            Call::AddFile { path, .. } => self.add(path),
            Call::DeleteEntry { path, .. } => {
                push_line(&mut self.lines, NodeChange::Deleted, path)
            }
            Call::ApplyText { token, .. } => {
                set_text(&mut self.nodes, *token);
                Ok(())
            }
            Call::ChangeDirProp { token, .. } => {
                set_props(&mut self.nodes, *token);
                Ok(())
            }
            Call::ChangeFileProp { token, .. } => {
                set_props(&mut self.nodes, *token);
                Ok(())
            }
            Call::CloseDirectory { token } => self.close(copy, *token),
            Call::CloseFile { token, .. } => self.close(copy, *token),
            Call::SetTargetRevision { .. } => Ok(()),
            Call::CloseEdit => Ok(()),
            Call::AbortEdit => Ok(()),
        }
    }

    fn note(&mut self, alloc: Global, copy: &WorkingCopy, call: &Call) -> Result<(), AllocError>
        ensures noted { OnOk result ((calls : List Call) → IsNoted (get_in copy.now) calls self.old → KnowsEdits calls self.old.edited → IsNoted (get_in copy.now) (calls ++ call.now ∷ []) self.new) }
        ensures edits { OnOk result ((calls : List Call) → IsNoted (get_in copy.now) calls self.old → KnowsEdits calls self.old.edited → KnowsEdits (calls ++ call.now ∷ []) self.new.edited) }
    {
        let edited = self.edited_after(call);
        self.take(alloc, copy, call)?;
        self.edited = edited;
        Ok(())
    }
}

/// The lines that an update of a copy prints which makes these calls, in their order: an added node's at its add, a deleted one's at its delete, and that
/// of a node that was there before at its close, if its text or its properties were changed. A call says so, but at a directory that is incomplete in the
/// copy and has properties: that has its line if anything in it or below it is changed. AllocError where an allocation failed.
pub fn update_lines(
    alloc: Global,
    copy: &WorkingCopy,
    calls: &[Call],
) -> Result<Vec<UpdateLine>, AllocError>
    ensures lines { IfOk result (λ lines. lines.items ≡ update_lines (get_in copy.now) calls.now) }
{
    let mut noted = Noted {
        nodes: Vec::new(alloc),
        edited: 0,
        lines: Vec::new(alloc),
    };
    for call in calls {
        noted.note(alloc, copy, call)?;
    }
    let Noted {
        nodes: _,
        edited: _,
        lines,
    } = noted;
    Ok(lines)
}

/// An update whose calls delete, add and change nothing prints no line.
pub fn no_change_no_line()
    ensures { no_change_no_line }
{}

/// Each line has the path of a call that opens, adds or deletes.
pub fn lines_have_paths_of_calls()
    ensures { lines_have_paths_of_calls }
{}
