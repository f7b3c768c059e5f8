//! Paths as texts, and long ones made of few numbers.
use std::alloc::Global;
use std::process::Abort;
use std::test::Fail;
use svn_types::RelPath;

/// That many names of that many bytes. The first is of letters `a`, the next of letters `b`, and so on.
pub(crate) type Names = (usize, usize);

fn push_name(out: &mut String, letter: char, len: usize) -> Result<(), Fail> {
    if !out.is_empty() {
        out.push('/')?;
    }
    for _ in 0..len {
        out.push(letter)?;
    }
    Ok(())
}

fn push_names(out: &mut String, names: Names) -> Result<(), Fail> {
    for at in 0..names.0 {
        let letter = b'a' + (at % 26) as u8;
        push_name(out, letter as char, names.1)?;
    }
    Ok(())
}

/// Writes a path of these names after the one that is there.
pub(crate) fn push_all(out: &mut String, rows: &[Names]) -> Result<(), Fail> {
    for names in rows {
        push_names(out, *names)?;
    }
    Ok(())
}

/// The text of the path of these names.
pub(crate) fn text_of(alloc: Global, rows: &[Names]) -> Result<String, Fail> {
    let mut text = String::new(alloc);
    push_all(&mut text, rows)?;
    Ok(text)
}

/// How many names there are.
pub(crate) fn count(rows: &[Names]) -> usize {
    let mut count = 0usize;
    for names in rows {
        count = count.saturating_add(names.0);
    }
    count
}

/// The names of a path, a slash between two of them.
pub(crate) fn shown(alloc: Global, path: &RelPath) -> Result<String, Fail> {
    let mut text = String::new(alloc);
    for name in path.components() {
        if !text.is_empty() {
            text.push('/')?;
        }
        text.push_str(name.as_str())?;
    }
    Ok(text)
}

// The text of a path shortly before another one, which is not the root: its last letter is replaced by the least of all.
fn before(alloc: Global, text: &str) -> Result<String, Fail> {
    let mut before = String::from_str(alloc, text)?;
    before.pop();
    before.push(' ')?;
    Ok(before)
}

// Whether a path is before another one, and not after it.
fn is_before(path: &RelPath, other: &RelPath) -> bool {
    path < other && other > path
}

fn is_after_text(alloc: Global, path: &RelPath, text: &str) -> Result<bool, Fail> {
    Ok(is_before(&RelPath::parse(alloc, text)?, path))
}

fn is_before_text(alloc: Global, path: &RelPath, text: &str) -> Result<bool, Fail> {
    Ok(is_before(path, &RelPath::parse(alloc, text)?))
}

// Whether a path is after the one before it.
fn is_after(alloc: Global, path: &RelPath, text: &str) -> Result<bool, Fail> {
    if text.is_empty() {
        return Ok(true);
    }
    let before = before(alloc, text)?;
    is_after_text(alloc, path, before.as_str())
}

// Whether a path is the one of this text, and between its neighbours: the one before it, and the one whose last name has a blank more.
fn is_alike(alloc: Global, path: &RelPath, text: &str) -> Result<bool, Fail> {
    let parsed = RelPath::parse(alloc, text)?;
    let after = format!(in alloc; "{text} ")?;
    Ok(
        *path == parsed
            && is_after(alloc, path, text)?
            && is_before_text(alloc, path, after.as_str())?,
    )
}

/// A path must be the one of this text, and to have its place in the order.
pub(crate) fn is_path(
    rt: &impl Abort,
    alloc: Global,
    path: &RelPath,
    text: &str,
) -> Result<(), Fail> {
    let shown = shown(alloc, path)?;
    assert_eq!(rt; shown.as_str(), text);
    let is_alike = is_alike(alloc, path, text)?;
    assert!(rt; is_alike, "{text}");
    Ok(())
}
