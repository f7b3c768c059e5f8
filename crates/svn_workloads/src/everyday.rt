//! The everyday update: a copy of a large tree follows its history on one thread. Most revisions change a few files that are close together, some
//! many, and many are of a branch, and change nothing in the copy.

use crate::dice::Dice;
use crate::script::Script;
use crate::story::Story;
use crate::tree::Size;
use std::alloc::{AllocError, Global};
use std::fmt::Write;

const FILES: u64 = 36_000;

const UPDATES: u64 = 110;

const LEAST_TEXT: u64 = 12;

// Of each that many files of a change, one is deleted or comes back, and of that many one gets a property.
const DELETED: u64 = 15;

const PROPERTY: u64 = 20;

fn remove_file(story: &mut Story, place: usize) -> Result<(), AllocError> {
    let path = story.source.tree.file(place);
    writeln!(story.script.text, "remove trunk/{path}")
}

fn set_property(story: &mut Story, place: usize) -> Result<(), AllocError> {
    let value = story.source.dice.below(1_000);
    let path = story.source.tree.file(place);
    writeln!(story.script.text, "prop trunk/{path} svn:mergeinfo {value}")
}

fn put_file(story: &mut Story, place: usize) -> Result<(), AllocError> {
    let source = &mut story.source;
    source.tree.mark(place, true);
    let path = source.tree.file(place);
    let text = source.texts.draw(&mut source.dice, LEAST_TEXT);
    story.script.put("trunk", path, text)
}

// Whether the dice have a file that is there deleted.
fn is_deleted(story: &mut Story, place: usize) -> bool {
    let source = &mut story.source;
    source.dice.once_in(DELETED) && source.tree.mark(place, false)
}

// A file of trunk is changed, deleted or comes back, or gets a property.
fn change_file(story: &mut Story, place: usize) -> Result<(), AllocError> {
    if is_deleted(story, place) {
        return remove_file(story, place);
    }
    put_file(story, place)?;
    if story.source.dice.once_in(PROPERTY) {
        return set_property(story, place);
    }
    Ok(())
}

// Files that are close together are changed, up to that many.
fn change_cluster(story: &mut Story, most: u64) -> Result<(), AllocError> {
    let files = story.source.tree.files.len();
    let start = story.source.dice.place(files);
    let count = story.source.dice.from(1, most) as usize;
    for place in start..start.saturating_add(count).min(files) {
        change_file(story, place)?;
    }
    Ok(())
}

fn change_clusters(story: &mut Story, clusters: u64, most: u64) -> Result<(), AllocError> {
    for _ in 0..clusters {
        change_cluster(story, most)?;
    }
    Ok(())
}

// Some files of the branch that weren't deleted there are changed.
fn change_branch(story: &mut Story) -> Result<(), AllocError> {
    let count = story.source.dice.from(1, 20);
    story.change_files("branches/stable", count)
}

fn add_file(story: &mut Story, place: usize, file: u64) -> Result<(), AllocError> {
    let number = story.script.revision;
    let source = &mut story.source;
    let above = source.tree.directory(place);
    let text = source.texts.draw(&mut source.dice, LEAST_TEXT);
    writeln!(
        story.script.text,
        "put trunk/{above}/new-{number}/NewFile{file}.java {text}"
    )
}

// A new directory with some files.
fn add_directory(story: &mut Story) -> Result<(), AllocError> {
    let number = story.script.revision;
    let source = &mut story.source;
    let place = source.tree.any_directory_place(&mut source.dice);
    let above = source.tree.directory(place);
    writeln!(story.script.text, "mkdir trunk/{above}/new-{number}")?;
    for file in 0..story.source.dice.from(3, 40) {
        add_file(story, place, file)?;
    }
    Ok(())
}

// How many clusters of files a revision changes, and how many files of each at most; none where it is one of the branch.
fn clusters(dice: &mut Dice) -> Option<(u64, u64)> {
    match dice.below(20) {
        0..=5 => None,
        6..=15 => Some((dice.from(1, 3), 10)),
        16..=18 => Some((dice.from(2, 6), 40)),
        _ => Some((dice.from(5, 6), 150)),
    }
}

// One revision.
fn commit_next(story: &mut Story) -> Result<(), AllocError> {
    let Some((clusters, most)) = clusters(&mut story.source.dice) else {
        return change_branch(story);
    };
    change_clusters(story, clusters, most)?;
    if story.source.dice.once_in(6) {
        add_directory(story)?;
    }
    story.script.commit()
}

// One to four revisions, and an update to the last.
fn update_next(story: &mut Story) -> Result<(), AllocError> {
    for _ in 0..story.source.dice.from(1, 4) {
        commit_next(story)?;
    }
    let revision = story.script.revision;
    writeln!(story.script.text, "update {revision}")
}

fn begin(story: &mut Story) -> Result<(), AllocError> {
    story.script.push("mkdir branches\n")?;
    story.script.commit()?;
    story.script.push("copy 1 trunk branches/stable\n")?;
    story.script.commit()?;
    story.script.push("checkout 2 trunk\n")
}

fn updates(story: &mut Story) -> Result<(), AllocError> {
    begin(story)?;
    for _ in 0..UPDATES {
        update_next(story)?;
    }
    story.script.push("report\nshow\n")
}

/// Its history and its updates; it shows the copy at the end.
pub(crate) fn script(alloc: Global, size: Size) -> Result<Script, AllocError> {
    let dice = Dice::new(size.seed, 1);
    let mut story = Story::begin(alloc, dice, size.of(FILES), LEAST_TEXT)?;
    updates(&mut story)?;
    Ok(story.script)
}
