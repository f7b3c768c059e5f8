//! What is awkward: files sixty directories down, one directory of very many long names that begin alike, files of many properties, and texts
//! near the limit; checked out, driven, updated with texts in place and late, reported and shown.

use crate::dice::Dice;
use crate::script::Script;
use crate::tree::Size;
use crate::words::Texts;
use std::alloc::{AllocError, Global};
use std::fmt::Write;

const DEPTH: u64 = 60;

const DEEP_FILES: u64 = 2_500;

const FLAT_FILES: u64 = 18_000;

const RICH_FILES: u64 = 500;

const PROPERTIES: u64 = 40;

const LONG_TEXTS: u64 = 2;

const LONG_TEXT: u64 = 1_000_000;

// What each of the long names begins with.
const FRONT: &str =
    "a-name-that-is-long-and-begins-like-every-other-name-of-this-directory-which-holds-a-great-many-of-them";

const DIRECTORIES: &str = "mkdir trunk\nmkdir trunk/flat\nmkdir trunk/rich\nmkdir trunk/long\n";

// What is done with the copies, to each revision from another once.
const RUNS: &str = "checkout 1 trunk
drive 2
update 2
update 3 late
update 1 late
update 3 20000
report
update 3
switch-to branch 4
checkout 2 trunk
show
";

/// What is written, and what it is made from.
#[derive(Drop)]
struct Job {
    dice: Dice,
    texts: Texts,
    deepest: String,
    script: Script,
    size: Size,
}

impl Job {
    fn new(alloc: Global, size: Size) -> Result<Job, AllocError> {
        let mut dice = Dice::new(size.seed, 4);
        let texts = Texts::new(alloc, &mut dice)?;
        Ok(Job {
            dice,
            texts,
            deepest: String::new(alloc),
            script: Script::new(alloc),
            size,
        })
    }

    fn make_deepest(&mut self) -> Result<(), AllocError> {
        self.script.make_directory("trunk", self.deepest.as_str())
    }

    fn deepen(&mut self, level: u64) -> Result<(), AllocError> {
        self.make_deepest()?;
        write!(self.deepest, "/l{level}")
    }

    fn directories(&mut self) -> Result<(), AllocError> {
        self.script.push(DIRECTORIES)?;
        self.deepest.push_str("deep")?;
        for level in 1..DEPTH {
            self.deepen(level)?;
        }
        self.make_deepest()
    }

    fn put_deep(&mut self, number: u64) -> Result<(), AllocError> {
        let above = self.deepest.as_str();
        let text = self.texts.cut(&mut self.dice, 10);
        writeln!(self.script.text, "put trunk/{above}/File{number}.c {text}")
    }

    fn change_deep(&mut self) -> Result<(), AllocError> {
        for number in 0..self.size.of(DEEP_FILES) {
            self.put_deep(number)?;
        }
        Ok(())
    }

    // Always, or once in that many times.
    fn is_chosen(&mut self, step: u64) -> bool {
        step == 1 || self.dice.once_in(step)
    }

    fn put_flat(&mut self, number: u64) -> Result<(), AllocError> {
        let text = self.texts.cut(&mut self.dice, 30);
        writeln!(
            self.script.text,
            "put trunk/flat/{FRONT}-{number:06} {text}"
        )
    }

    // One in that many of the files with long names.
    fn change_flat(&mut self, step: u64) -> Result<(), AllocError> {
        for number in 0..self.size.of(FLAT_FILES) {
            if self.is_chosen(step) {
                self.put_flat(number)?;
            }
        }
        Ok(())
    }

    fn set_property(&mut self, file: u64, number: u64) -> Result<(), AllocError> {
        let value = self.texts.cut(&mut self.dice, 12);
        writeln!(
            self.script.text,
            "prop trunk/rich/f{file} custom:property-{number} {value}"
        )
    }

    fn change_properties(&mut self, file: u64, step: u64) -> Result<(), AllocError> {
        for number in 0..PROPERTIES {
            if self.is_chosen(step) {
                self.set_property(file, number)?;
            }
        }
        Ok(())
    }

    fn put_rich(&mut self, file: u64) -> Result<(), AllocError> {
        let text = self.texts.cut(&mut self.dice, 100);
        writeln!(self.script.text, "put trunk/rich/f{file} {text}")
    }

    fn change_rich(&mut self, step: u64) -> Result<(), AllocError> {
        for file in 0..self.size.of(RICH_FILES) {
            self.put_rich(file)?;
            self.change_properties(file, step)?;
        }
        Ok(())
    }

    fn push_letters(&mut self, len: u64) -> Result<(), AllocError> {
        let text = self.texts.cut(&mut self.dice, len);
        self.script.push(text)
    }

    // In four parts, each short enough for a cut.
    fn put_long(&mut self, file: u64) -> Result<(), AllocError> {
        write!(self.script.text, "put trunk/long/f{file} ")?;
        let len = self.size.of(LONG_TEXT);
        for _ in 0..4 {
            self.push_letters(len / 4)?;
        }
        self.script.push("\n")
    }

    fn change_long(&mut self) -> Result<(), AllocError> {
        for file in 0..LONG_TEXTS {
            self.put_long(file)?;
        }
        Ok(())
    }

    // A revision in which one in that many changes.
    fn change(&mut self, step: u64) -> Result<(), AllocError> {
        self.change_deep()?;
        self.change_flat(step)?;
        self.change_rich(step)?;
        self.change_long()?;
        self.script.commit()
    }

    fn write(&mut self) -> Result<(), AllocError> {
        self.directories()?;
        for step in 1..4 {
            self.change(step)?;
        }
        self.script.push("copy 1 trunk branch\n")?;
        self.script.commit()?;
        self.script.push(RUNS)
    }
}

/// Three revisions, and a copy that goes to each of them.
pub(crate) fn script(alloc: Global, size: Size) -> Result<Script, AllocError> {
    let mut job = Job::new(alloc, size)?;
    job.write()?;
    Ok(job.script)
}
