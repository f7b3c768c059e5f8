//! The printed lines of a node of a copy, and of its properties.
ghost use Rattle.std.specs.Prelude.{◌≡◌, ◌∷◌, ◌++◌, [], Some, IfSome, OnOk, codes};
ghost use Rattle.std.specs.Fmt.{DisplaysOnOk, decimal};
ghost use Rattle.std.specs.List.{flat_map};
ghost use Rattle.svn_editor.specs.Words.{path_word, word};
ghost use Rattle.svn_nodes.specs.Lines.{complete_words, line, node_lines, node_words, prop_line, prop_start};

use arrayvec::ArrayString;
use std::fmt;
use std::fmt::Write;
use std::marker::Model;
use svn_editor::{PathWord, Word, push_path, push_word};
use svn_model::BaseNode;
use svn_types::{PropName, Props, RelPath, Rev, Text};

// The longest beginning of a property's line that is built once for all properties of a node.
const MAX_START: usize = 96;

// What is before each property of a node: if it is short, as a text that was built once.
#[derive(Drop)]
struct PropStart<'a> {
    path: &'a RelPath,
    text: Option<ArrayString<96>>,
}

impl<'a> Model for PropStart<'a> {
    ghost use Rattle.std.specs.Prelude.{◌≡◌, ℕ, List, IfSome};
    ghost use Rattle.svn_nodes.specs.Lines.{prop_start};

    ghost Value = { List (List ℕ) };

    ghost view = { λ s. s.path.now };

    ghost invariant = { λ s. IfSome s.text (λ t. t.bytes ≡ prop_start s.path.now) };
}

// The beginning of a property's line as a text, if it is short.
fn start_text(path: &RelPath) -> Option<ArrayString<96>>
    ensures { IfSome result (λ t. t.bytes ≡ prop_start path.now) }
{
    let mut text = ArrayString::<MAX_START>::new();
    let at = PathWord(path);
    match write!(text, "{at} prop ") {
        Ok(()) => Some(text),
        Err(_) => None,
    }
}

impl<'a> PropStart<'a> {
    fn of(path: &'a RelPath) -> PropStart<'a>
        ensures { result ≡ path.now }
    {
        PropStart {
            path,
            text: start_text(path),
        }
    }
}

impl fmt::Display for PropStart<'_> {
    ghost output = { λ s. Some (prop_start s) };

    fn fmt<W: fmt::Write>(&self, f: &mut fmt::Formatter<W>) -> fmt::Result {
        match &self.text {
            Some(text) => f.write_str(text.as_str()),
            None => {
                let at = PathWord(self.path);
                write!(f, "{at} prop ")
            }
        }
    }
}

// One property of a node. Its name has no byte that is escaped.
fn write_prop<W: fmt::Write>(
    start: &PropStart<'_>,
    name: &PropName,
    value: &Text,
    f: &mut fmt::Formatter<W>,
) -> fmt::Result
    ensures { DisplaysOnOk W.write_str_gives f.old result (Some (prop_line start.now (name.now, value.now))) f.new }
{
    let name = name.as_str();
    let value = Word(value.as_slice());
    writeln!(f, "{start}{name} {value}")
}

// The properties of a node, in order of their names.
fn write_props<W: fmt::Write>(
    path: &RelPath,
    props: &Props,
    f: &mut fmt::Formatter<W>,
) -> fmt::Result
    ensures { DisplaysOnOk W.write_str_gives f.old result (Some (flat_map (prop_line path.now) props.now)) f.new }
{
    if props.is_empty() {
        return Ok(());
    }
    let start = PropStart::of(path);
    for (name, value) in props.as_map() {
        write_prop(&start, name, value, f)?;
    }
    Ok(())
}

// The line of a file, without the properties after it.
fn write_file<W: fmt::Write>(
    path: &RelPath,
    rev: Rev,
    from: &RelPath,
    text: &Text,
    f: &mut fmt::Formatter<W>,
) -> fmt::Result
    ensures { DisplaysOnOk W.write_str_gives f.old result (Some (line (path_word path.now ∷ codes "file" ∷ decimal rev ∷ path_word from.now ∷ word text.now ∷ []))) f.new }
{
    let (at, from) = (PathWord(path), PathWord(from));
    let text = Word(text.as_slice());
    writeln!(f, "{at} file {} {from} {text}", rev.0)
}

// The line of a directory.
fn write_directory<W: fmt::Write>(
    path: &RelPath,
    rev: Rev,
    from: &RelPath,
    complete: bool,
    f: &mut fmt::Formatter<W>,
) -> fmt::Result
    ensures { DisplaysOnOk W.write_str_gives f.old result (Some (line (path_word path.now ∷ codes "dir" ∷ decimal rev ∷ path_word from.now ∷ complete_words complete))) f.new }
{
    let (at, from) = (PathWord(path), PathWord(from));
    if complete {
        writeln!(f, "{at} dir {} {from}", rev.0)
    } else {
        writeln!(f, "{at} dir {} {from} incomplete", rev.0)
    }
}

// The line of a node, piece by piece.
fn write_pieces<W: fmt::Write>(
    path: &RelPath,
    node: &BaseNode,
    f: &mut fmt::Formatter<W>,
) -> fmt::Result
    ensures { DisplaysOnOk W.write_str_gives f.old result (Some (line (node_words path.now node.now))) f.new }
{
    match node {
        BaseNode::File {
            rev,
            repos_path,
            text,
            ..
        } => write_file(path, *rev, repos_path, text, f),
        BaseNode::Dir {
            rev,
            repos_path,
            complete,
            ..
        } => write_directory(path, *rev, repos_path, *complete, f),
        BaseNode::NotPresent => {
            let at = PathWord(path);
            writeln!(f, "{at} not-present")
        }
    }
}

/// The texts of a node's line while it is built: the word of its path, and the line. They have room for 1,024 bytes each, in place, and
/// serve for one node after the other.
#[derive(Drop)]
pub struct LineTexts {
    at: ArrayString<1024>,
    line: ArrayString<1024>,
}

impl LineTexts {
    /// Two empty texts. It takes no memory.
    pub fn new() -> LineTexts {
        LineTexts {
            at: ArrayString::new(),
            line: ArrayString::new(),
        }
    }
}

// Appends the word of a repository path to a line. Mostly that is the path in the copy.
fn put_from(
    path: &RelPath,
    at: &ArrayString<1024>,
    from: &RelPath,
    line: &mut ArrayString<1024>,
) -> fmt::Result
    requires { at.now.bytes ≡ path_word path.now }
    ensures { OnOk result (line.new.bytes ≡ line.old.bytes ++ path_word from.now) }
{
    if from == path {
        line.write_str(at.as_str())?;
        Ok(())
    } else {
        push_path(from, line)
    }
}

// Builds the beginning of a node's line: its path, what it is, and its revision.
fn put_start(
    at: &ArrayString<1024>,
    kind: &str,
    rev: Rev,
    line: &mut ArrayString<1024>,
) -> fmt::Result
    ensures { OnOk result (line.new.bytes ≡ at.now.bytes ++ kind.now ++ decimal rev ++ 32 ∷ []) }
{
    line.clear();
    line.write_str(at.as_str())?;
    line.write_str(kind)?;
    write!(line, "{} ", rev.0)?;
    Ok(())
}

// Builds the line of a file.
fn put_file(
    path: &RelPath,
    rev: Rev,
    from: &RelPath,
    text: &Text,
    texts: &mut LineTexts,
) -> fmt::Result
    ensures { OnOk result (texts.new.line.bytes ≡ line (path_word path.now ∷ codes "file" ∷ decimal rev ∷ path_word from.now ∷ word text.now ∷ [])) }
{
    let LineTexts { at, line } = texts;
    at.clear();
    push_path(path, at)?;
    put_start(at, " file ", rev, line)?;
    put_from(path, at, from, line)?;
    line.write_str(" ")?;
    push_word(text.as_slice(), line)?;
    line.write_str("\n")?;
    Ok(())
}

// Builds the line of a complete directory.
fn put_directory(path: &RelPath, rev: Rev, from: &RelPath, texts: &mut LineTexts) -> fmt::Result
    ensures { OnOk result (texts.new.line.bytes ≡ line (path_word path.now ∷ codes "dir" ∷ decimal rev ∷ path_word from.now ∷ [])) }
{
    let LineTexts { at, line } = texts;
    at.clear();
    push_path(path, at)?;
    put_start(at, " dir ", rev, line)?;
    put_from(path, at, from, line)?;
    line.write_str("\n")?;
    Ok(())
}

// Builds a node's line, if it is short, has no byte that is escaped, and is not of a rare kind.
fn put_line(path: &RelPath, node: &BaseNode, texts: &mut LineTexts) -> fmt::Result
    ensures { OnOk result (texts.new.line.bytes ≡ line (node_words path.now node.now)) }
{
    match node {
        BaseNode::File {
            rev,
            repos_path,
            text,
            ..
        } => put_file(path, *rev, repos_path, text, texts),
        BaseNode::Dir {
            rev,
            repos_path,
            complete,
            ..
        } => {
            if *complete {
                put_directory(path, *rev, repos_path, texts)
            } else {
                Err(fmt::Error)
            }
        }
        BaseNode::NotPresent => Err(fmt::Error),
    }
}

// A node's line. Most are built first, since one write costs less than many.
fn write_line<W: fmt::Write>(
    path: &RelPath,
    node: &BaseNode,
    texts: &mut LineTexts,
    f: &mut fmt::Formatter<W>,
) -> fmt::Result
    ensures { DisplaysOnOk W.write_str_gives f.old result (Some (line (node_words path.now node.now))) f.new }
{
    match put_line(path, node, texts) {
        Ok(()) => f.write_str(texts.line.as_str()),
        Err(_) => write_pieces(path, node, f),
    }
}

/// Writes a node at its path, as lines that end with a line feed: `PATH file REV REPOSPATH TEXT`, `PATH dir REV REPOSPATH`, followed by
/// ` incomplete` where it is that, or `PATH not-present`; after that one line for each of its properties, in order of their names,
/// `PATH prop NAME VALUE`. Paths, texts and values are words, as in a printed call. The only fault is the writer's. It takes no memory.
pub fn write_node<W: fmt::Write>(
    path: &RelPath,
    node: &BaseNode,
    texts: &mut LineTexts,
    f: &mut fmt::Formatter<W>,
) -> fmt::Result
    ensures { DisplaysOnOk W.write_str_gives f.old result (Some (node_lines (path.now, node.now))) f.new }
{
    write_line(path, node, texts, f)?;
    match node {
        BaseNode::File { props, .. } => write_props(path, props, f),
        BaseNode::Dir { props, .. } => write_props(path, props, f),
        BaseNode::NotPresent => Ok(()),
    }
}
