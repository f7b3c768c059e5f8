//! The whole copy goes to and fro between trunk and a branch that differs in a few files, and large directories of it are placed, switched and
//! forgotten.

use crate::dice::Dice;
use crate::script::Script;
use crate::story::Story;
use crate::tree::Size;
use std::alloc::{AllocError, Global};
use std::fmt::Write;

const FILES: u64 = 30_000;

const ROUNDS: u64 = 6;

const LEAST_TEXT: u64 = 12;

// A branch of trunk.
const BEGUN: &str = "mkdir branches\ncopy 1 trunk branches/release\n";

// From 10 files on are changed.
fn change(story: &mut Story, root: &str) -> Result<(), AllocError> {
    let count = story.source.dice.from(10, 60);
    story.change_files(root, count)
}

// A directory near the root is placed at another revision, switched, forgotten, and placed again.
fn change_directory(script: &mut Script, path: &str) -> Result<(), AllocError> {
    let revision = script.revision;
    writeln!(
        script.text,
        "place {path} 1\nswitch {path} branches/release/{path} {revision}\nforget {path}\nplace {path} {revision}"
    )
}

// There and back.
fn switch(script: &mut Script) -> Result<(), AllocError> {
    let revision = script.revision;
    writeln!(
        script.text,
        "switch-to branches/release {revision}\nswitch-to trunk {revision}"
    )
}

fn round(story: &mut Story, number: u64) -> Result<(), AllocError> {
    change(story, "trunk")?;
    change(story, "branches/release")?;
    switch(&mut story.script)?;
    let path = story.source.tree.directory(number as usize);
    change_directory(&mut story.script, path)
}

fn rounds(story: &mut Story) -> Result<(), AllocError> {
    story.script.push(BEGUN)?;
    story.script.commit()?;
    story.script.push("checkout 2 trunk\n")?;
    for number in 0..ROUNDS {
        round(story, number)?;
    }
    story.script.push("show\n")
}

/// Its history and its switches; it shows the copy at the end.
pub(crate) fn script(alloc: Global, size: Size) -> Result<Script, AllocError> {
    let dice = Dice::new(size.seed, 3);
    let mut story = Story::begin(alloc, dice, size.of(FILES), LEAST_TEXT)?;
    rounds(&mut story)?;
    Ok(story.script)
}
