//! Sparse copies that Subversion made, true and false: what `check` answers, and how what else is asked of them is refused.
//!
//! `data/sparse` has for each copy NAME its database NAME.db; NAME.checked, what `check` must print; and NAME.refused, the line of the refusal, none of the
//! copy that isn't sparse. All are of the history sparse.dump. `examples/subversion/sparse_data.sh` has Subversion make them.

use super::answers::{InMemory, answers_of, told_of};
use super::compare;
use super::files::{file_of, history_of};
use crate::names::names_of;
use anyhow::Result;
use std::rt::Files;
use svn_answers::{History, Topic};
use svn_dump::Texts;

fn compare_answers<R: Files + AllocGlobal + Print>(
    rt: &R,
    history: History<'_>,
    copies: &InMemory<'_>,
    name: &str,
) -> Result<()> {
    let (_, lines, notices) = answers_of(rt.alloc(), history, copies, &[name])?;
    let wanted = file_of(rt, "sparse", name, "checked")?;
    compare(rt, name, "what is checked", &lines, &wanted)?;
    compare(rt, name, "what is noticed", &notices, &[])
}

fn compare_copy<R: Files + AllocGlobal + Print>(
    rt: &R,
    history: History<'_>,
    name: &str,
) -> Result<()> {
    let alloc = rt.alloc();
    let database = file_of(rt, "sparse", name, "db")?;
    let copies = InMemory {
        alloc,
        database: &database,
        below: "",
    };
    compare_answers(rt, history, &copies, name)?;
    let wanted = file_of(rt, "sparse", name, "refused")?;
    let (_, found) = told_of(alloc, history, &copies, Topic::Report, name)?;
    compare(rt, name, "what is refused", &found, &wanted)
}

/// Compares all of them.
pub(crate) fn check_sparse<R: Files + AllocGlobal + Print + Clone + Drop>(rt: &R) -> Result<()> {
    let texts = Texts::Sha1;
    let repo = history_of(rt, "sparse/sparse.dump", texts)?;
    let history = History {
        repo: &repo,
        texts,
        uuid: None,
        any_uuid: false,
        first: 0,
    };
    for name in &names_of(rt, "sparse", ".db")? {
        compare_copy(rt, history, name)?;
    }
    Ok(())
}
