//! Words that are appended to a text.
use arrayvec::ArrayString;
use std::alloc::Global;
use std::fmt;
use std::process::Abort;
use std::test::Fail;
use svn_editor::{push_path, push_word};
use svn_types::RelPath;

// A path and bytes, and the text of their words, if no byte of them is escaped.
static ROWS: [(&str, &str, Option<&str>); 5] = [
    ("", "abc", Some(".abc")),
    ("d/f", "", Some("d/f\"\"")),
    (
        "a-long-name/another-long-name/and-one-more/and-the-last-of-all-names",
        "x",
        Some("a-long-name/another-long-name/and-one-more/and-the-last-of-all-namesx"),
    ),
    ("d e", "x", None),
    ("d", "100%", None),
];

fn put(path: &RelPath, bytes: &str, text: &mut ArrayString<1024>) -> fmt::Result {
    push_path(path, text)?;
    push_word(bytes.as_bytes(), text)
}

fn puts(
    rt: &impl Abort,
    alloc: Global,
    path: &str,
    bytes: &str,
    line: Option<&str>,
) -> Result<(), Fail> {
    let path = RelPath::parse(alloc, path)?;
    let mut text = ArrayString::new();
    let is_put = put(&path, bytes, &mut text).is_ok();
    assert_eq!(rt; is_put, line.is_some());
    if let Some(line) = line {
        assert_eq!(rt; text.as_str(), line);
    }
    Ok(())
}

#[test]
fn words_are_put_behind_a_text(rt: HostRuntime) -> Result<(), Fail> {
    for (path, bytes, line) in &ROWS {
        puts(&rt, rt.alloc(), path, bytes, *line)?;
    }
    Ok(())
}
