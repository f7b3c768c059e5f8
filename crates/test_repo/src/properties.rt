//! The changes between two lists of properties.
use std::alloc::Global;
use std::test::Fail;
use svn_types::{PropChange, PropName, Props, Text};

// Names and values.
type Rows = &'static [(&'static str, &'static str)];

static OLD: Rows = &[("a", "1"), ("b", "2"), ("c", "3")];

static NEW: Rows = &[("b", "2"), ("c", "4"), ("aa", "5")];

fn insert(alloc: Global, props: &mut Props, name: &str, value: &str) -> Result<(), Fail> {
    let value = Text::new(Vec::from_slice(alloc, value.as_bytes())?);
    props.insert(PropName::parse(alloc, name)?, value)?;
    Ok(())
}

fn props(alloc: Global, rows: &[(&str, &str)]) -> Result<Props, Fail> {
    let mut props = Props::new(alloc);
    for (name, value) in rows {
        insert(alloc, &mut props, name, value)?;
    }
    Ok(props)
}

fn push_value(alloc: Global, value: &Text, out: &mut String) -> Result<(), Fail> {
    let value = String::from_utf8_lossy(alloc, value.as_slice())?;
    write!(out, " {}", value.as_str())?;
    Ok(())
}

// Writes a name, its new value if it has one, and a comma.
fn push_change(alloc: Global, change: &PropChange, out: &mut String) -> Result<(), Fail> {
    out.push_str(change.0.as_str())?;
    if let Some(value) = &change.1 {
        push_value(alloc, value, out)?;
    }
    out.push(',')?;
    Ok(())
}

fn push_changes(alloc: Global, changes: &[PropChange], out: &mut String) -> Result<(), Fail> {
    for change in changes {
        push_change(alloc, change, out)?;
    }
    Ok(())
}

fn changes(alloc: Global, old: Rows, new: Rows) -> Result<String, Fail> {
    let mut out = String::new(alloc);
    let old = props(alloc, old)?;
    let new = props(alloc, new)?;
    push_changes(alloc, &old.changes_to(alloc, &new)?, &mut out)?;
    Ok(out)
}

#[test]
fn changes_are_told_in_the_order_of_names(rt: HostRuntime) -> Result<(), Fail> {
    let changes = changes(rt.alloc(), OLD, NEW)?;
    assert_eq!(rt; changes.as_str(), "a,aa 5,c 4,");
    Ok(())
}
