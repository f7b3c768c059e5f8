//! The mixed copy: a tenth of its files are at other revisions, and many directories are switched to a branch. It is reported, brought to one
//! revision by updates (the first ones stopped), and mixed again.

use crate::dice::Dice;
use crate::script::Script;
use crate::story::Story;
use crate::tree::Size;
use std::alloc::{AllocError, Global};
use std::fmt::Write;

const FILES: u64 = 12_000;

const REVISIONS: u64 = 40;

const ROUNDS: u64 = 9;

const LEAST_TEXT: u64 = 20;

// Some files are changed, of trunk or of the branch.
fn commit_next(story: &mut Story, size: Size) -> Result<(), AllocError> {
    let root = if story.source.dice.once_in(3) {
        "branches/next"
    } else {
        "trunk"
    };
    story.change_files(root, size.of(200))
}

fn commit_all(story: &mut Story, size: Size) -> Result<(), AllocError> {
    story
        .script
        .push("mkdir branches\ncopy 1 trunk branches/next\n")?;
    story.script.commit()?;
    for _ in 0..REVISIONS {
        commit_next(story, size)?;
    }
    story.script.push("checkout 2 trunk\n")
}

// A revision that has the branch too.
fn any_revision(dice: &mut Dice) -> u64 {
    dice.from(2, REVISIONS)
}

fn place_file(story: &mut Story) -> Result<(), AllocError> {
    let source = &mut story.source;
    let revision = any_revision(&mut source.dice);
    let path = source.tree.any_file(&mut source.dice);
    writeln!(story.script.text, "place {path} {revision}")
}

fn switch_directory(story: &mut Story) -> Result<(), AllocError> {
    let source = &mut story.source;
    let revision = any_revision(&mut source.dice);
    let path = source.tree.any_directory(&mut source.dice);
    writeln!(
        story.script.text,
        "switch {path} branches/next/{path} {revision}"
    )
}

fn forget_file(story: &mut Story) -> Result<(), AllocError> {
    let source = &mut story.source;
    let path = source.tree.any_file(&mut source.dice);
    writeln!(story.script.text, "forget {path}")
}

fn place_files(story: &mut Story, size: Size) -> Result<(), AllocError> {
    for _ in 0..size.of(FILES / 10) {
        place_file(story)?;
    }
    Ok(())
}

fn switch_directories(story: &mut Story, size: Size) -> Result<(), AllocError> {
    for _ in 0..size.of(60) {
        switch_directory(story)?;
    }
    Ok(())
}

fn forget_files(story: &mut Story, size: Size) -> Result<(), AllocError> {
    for _ in 0..size.of(100) {
        forget_file(story)?;
    }
    Ok(())
}

// An update that is stopped.
fn stopped_update(story: &mut Story, size: Size, revision: u64) -> Result<(), AllocError> {
    let calls = story.source.dice.from(1, size.of(3_000));
    writeln!(story.script.text, "update {revision} {calls}")
}

// Updates to a revision, the first of them stopped.
fn update(story: &mut Story, size: Size, revision: u64) -> Result<(), AllocError> {
    for _ in 0..3 {
        stopped_update(story, size, revision)?;
    }
    writeln!(story.script.text, "update {revision}")
}

fn round(story: &mut Story, size: Size, number: u64) -> Result<(), AllocError> {
    place_files(story, size)?;
    switch_directories(story, size)?;
    forget_files(story, size)?;
    story.script.push("report\n")?;
    let step = REVISIONS / ROUNDS;
    update(story, size, number.saturating_mul(step).saturating_add(3))
}

fn rounds(story: &mut Story, size: Size) -> Result<(), AllocError> {
    commit_all(story, size)?;
    for number in 0..ROUNDS {
        round(story, size, number)?;
    }
    story.script.push("show\n")
}

/// Its history and its updates; it shows the copy at the end.
pub(crate) fn script(alloc: Global, size: Size) -> Result<Script, AllocError> {
    let dice = Dice::new(size.seed, 2);
    let mut story = Story::begin(alloc, dice, size.of(FILES), LEAST_TEXT)?;
    rounds(&mut story, size)?;
    Ok(story.script)
}
