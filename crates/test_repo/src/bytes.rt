//! Bytes that are cut at a separator.
use std::test::Fail;
use svn_types::split_once;

static ROWS: [(&str, Option<(&str, &str)>); 5] = [
    ("", None),
    ("ab", None),
    ("a b c", Some(("a", "b c"))),
    (" b", Some(("", "b"))),
    ("a ", Some(("a", ""))),
];

fn rows() -> &'static [(&'static str, Option<(&'static str, &'static str)>)] {
    &ROWS
}

fn is_cut(text: &str, parts: Option<(&str, &str)>) -> bool {
    let Some((front, rest)) = split_once(text.as_bytes(), b' ') else {
        return parts.is_none();
    };
    match parts {
        Some((before, after)) => front == before.as_bytes() && rest == after.as_bytes(),
        None => false,
    }
}

#[test]
fn bytes_are_cut_at_the_first_separator(rt: HostRuntime) -> Result<(), Fail> {
    for (text, parts) in rows() {
        assert!(rt; is_cut(text, *parts), "{text}");
    }
    Ok(())
}
