//! Trees of directories and files, of the shape that large source trees have.

use crate::dice::Dice;
use crate::words;
use std::alloc::{AllocError, Global};

/// The seed of an input, and how many times smaller it is than one that is timed.
#[derive(Clone, Copy)]
pub(crate) struct Size {
    pub(crate) seed: u64,
    pub(crate) share: u64,
}

impl Size {
    /// How many there are, by the number where it is timed.
    pub(crate) fn of(self, count: u64) -> u64 {
        (count / self.share.max(1)).max(2)
    }
}

/// Paths below the root of a tree, of directories and files, and which of the files are there now.
#[derive(Drop)]
pub(crate) struct Tree {
    pub(crate) directories: Vec<String>,
    depths: Vec<u64>,
    pub(crate) files: Vec<String>,
    pub(crate) stands: Vec<bool>,
}

// The most directories above a directory.
const DEEPEST: u64 = 8;

// How many of the newest directories the next one mostly is in.
const RECENT: usize = 20;

// How many files a directory has: half of them few, one in two hundred very many.
fn files_in_one(dice: &mut Dice) -> u64 {
    match dice.below(200) {
        0..=119 => dice.from(1, 7),
        120..=183 => dice.from(6, 25),
        184..=198 => dice.from(30, 120),
        _ => dice.from(300, 1_200),
    }
}

// A path and a name below it.
pub(crate) fn below(alloc: Global, above: &str, name: &str) -> Result<String, AllocError> {
    if above.is_empty() {
        return format!(in alloc; "{name}");
    }
    format!(in alloc; "{above}/{name}")
}

impl Tree {
    /// A tree of that many files.
    pub(crate) fn new(alloc: Global, dice: &mut Dice, files: u64) -> Result<Tree, AllocError> {
        let mut tree = Tree {
            directories: vec![in alloc; String::new(alloc)]?,
            depths: vec![in alloc; 0]?,
            files: Vec::new(alloc),
            stands: Vec::new(alloc),
        };
        for _ in 0..files {
            let count = tree.files.len() as u64;
            if count >= files {
                break;
            }
            tree.add_full_directory(alloc, dice, files - count)?;
        }
        Ok(tree)
    }

    // A directory, and up to that many files in it.
    fn add_full_directory(
        &mut self,
        alloc: Global,
        dice: &mut Dice,
        most: u64,
    ) -> Result<(), AllocError> {
        self.add_directory(alloc, dice)?;
        let count = files_in_one(dice).min(most);
        self.add_files(alloc, dice, count)
    }

    // A directory, mostly one of the newest.
    fn any_above(&self, dice: &mut Dice) -> usize {
        let count = self.directories.len();
        if dice.once_in(6) {
            return dice.place(count);
        }
        let recent = RECENT.min(count);
        (count - recent).saturating_add(dice.place(recent))
    }

    // Where the next directory is.
    fn next_above(&self, dice: &mut Dice) -> usize {
        let place = self.any_above(dice);
        match self.depths.get(place) {
            Some(depth) if *depth < DEEPEST => place,
            _ => dice.place(self.directories.len().min(8)),
        }
    }

    // A name below the directory at a place, if there is one.
    fn path_below(&self, alloc: Global, place: usize, name: &str) -> Result<String, AllocError> {
        match self.directories.get(place) {
            Some(above) => below(alloc, above.as_str(), name),
            None => String::from_str(alloc, name),
        }
    }

    fn add_directory(&mut self, alloc: Global, dice: &mut Dice) -> Result<(), AllocError> {
        let place = self.next_above(dice);
        let name = words::directory_name(alloc, dice, self.directories.len())?;
        let path = self.path_below(alloc, place, name.as_str())?;
        self.directories.push(path)?;
        let depth = self.depths.get(place).copied().unwrap_or(0);
        self.depths.push(depth.saturating_add(1))?;
        Ok(())
    }

    // A file in the newest directory.
    fn add_file(
        &mut self,
        alloc: Global,
        dice: &mut Dice,
        stem: &str,
        number: u64,
    ) -> Result<(), AllocError> {
        let name = words::file_name(alloc, dice, stem, number)?;
        let newest = self.directories.len().saturating_sub(1);
        let path = self.path_below(alloc, newest, name.as_str())?;
        self.files.push(path)?;
        self.stands.push(true)?;
        Ok(())
    }

    // That many files in the newest directory.
    fn add_files(&mut self, alloc: Global, dice: &mut Dice, count: u64) -> Result<(), AllocError> {
        let stem = words::stem(alloc, dice)?;
        for number in 0..count {
            self.add_file(alloc, dice, stem.as_str(), number)?;
        }
        Ok(())
    }

    /// The path of a file.
    pub(crate) fn file(&self, place: usize) -> &str {
        match self.files.get(place) {
            Some(path) => path.as_str(),
            None => "",
        }
    }

    /// The path of a directory that isn't the root, counted from 0.
    pub(crate) fn directory(&self, place: usize) -> &str {
        match self.directories.get(place.saturating_add(1)) {
            Some(path) => path.as_str(),
            None => "",
        }
    }

    /// The path of any file.
    pub(crate) fn any_file(&self, dice: &mut Dice) -> &str {
        self.file(dice.place(self.files.len()))
    }

    /// Any directory that isn't the root, counted from 0.
    pub(crate) fn any_directory_place(&self, dice: &mut Dice) -> usize {
        dice.place(self.directories.len().saturating_sub(1))
    }

    /// The path of any directory that isn't the root.
    pub(crate) fn any_directory(&self, dice: &mut Dice) -> &str {
        self.directory(self.any_directory_place(dice))
    }

    /// Notes whether a file is there, and returns whether it was.
    pub(crate) fn mark(&mut self, place: usize, now: bool) -> bool {
        match self.stands.get_mut(place) {
            Some(stands) => {
                let before = *stands;
                *stands = now;
                before
            }
            None => false,
        }
    }
}
