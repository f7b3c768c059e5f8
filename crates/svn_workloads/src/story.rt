//! Scripts whose history is that of a tree.

use crate::dice::Dice;
use crate::script::Script;
use crate::source::Source;
use std::alloc::{AllocError, Global};
use std::fmt::Write;

/// A script, and what it is made from.
#[derive(Drop)]
pub(crate) struct Story {
    pub(crate) source: Source,
    pub(crate) script: Script,
}

impl Story {
    /// The first revision: a tree of that many files, below the directory trunk.
    pub(crate) fn begin(
        alloc: Global,
        dice: Dice,
        files: u64,
        least: u64,
    ) -> Result<Story, AllocError> {
        let mut story = Story {
            source: Source::new(alloc, dice, files, least)?,
            script: Script::new(alloc),
        };
        story.add_trunk()?;
        Ok(story)
    }

    fn add_trunk(&mut self) -> Result<(), AllocError> {
        self.add_directories()?;
        self.add_files()?;
        self.script.commit()
    }

    fn add_directories(&mut self) -> Result<(), AllocError> {
        for path in &self.source.tree.directories {
            self.script.make_directory("trunk", path.as_str())?;
        }
        Ok(())
    }

    // Each file gets a text, and every twelfth a property.
    fn add_files(&mut self) -> Result<(), AllocError> {
        let source = &mut self.source;
        for path in &source.tree.files {
            let text = source.texts.draw(&mut source.dice, source.least);
            let has_property = source.dice.once_in(12);
            self.script.add_file(path.as_str(), text, has_property)?;
        }
        Ok(())
    }

    /// Some file below a directory of the repository gets another text.
    pub(crate) fn change_file(&mut self, root: &str) -> Result<(), AllocError> {
        let source = &mut self.source;
        let path = source.tree.any_file(&mut source.dice);
        let text = source.texts.draw(&mut source.dice, source.least);
        self.script.put(root, path, text)
    }

    /// A revision in which that many files below a directory of the repository are changed.
    pub(crate) fn change_files(&mut self, root: &str, count: u64) -> Result<(), AllocError> {
        for _ in 0..count {
            self.change_file(root)?;
        }
        self.script.commit()
    }
}
