//! Scripts, put together line by line, and run.

use crate::digest::Digest;
use anyhow::{Result, bail};
use std::alloc::{AllocError, Global};
use std::fmt::Write;
use std::sync::Wait;
use std::thread::Threads;
use svn_update::{Settings, run_script};

const IN_TURN: Settings = Settings {
    capacity: 64,
    in_turn: true,
};

/// The lines of a script.
#[derive(Drop)]
pub(crate) struct Script {
    pub(crate) text: String,
    /// The newest revision.
    pub(crate) revision: u64,
}

impl Script {
    pub(crate) fn new(alloc: Global) -> Script {
        Script {
            text: String::new(alloc),
            revision: 0,
        }
    }

    /// Some whole lines.
    pub(crate) fn push(&mut self, lines: &str) -> Result<(), AllocError> {
        self.text.push_str(lines)
    }

    /// A file gets a text.
    pub(crate) fn put(&mut self, root: &str, path: &str, text: &str) -> Result<(), AllocError> {
        writeln!(self.text, "put {root}/{path} {text}")
    }

    /// A file of trunk is added.
    pub(crate) fn add_file(
        &mut self,
        path: &str,
        text: &str,
        has_property: bool,
    ) -> Result<(), AllocError> {
        self.put("trunk", path, text)?;
        if has_property {
            return writeln!(self.text, "prop trunk/{path} svn:eol-style native");
        }
        Ok(())
    }

    /// A directory is made below another, or that itself where the path is empty.
    pub(crate) fn make_directory(&mut self, root: &str, path: &str) -> Result<(), AllocError> {
        if path.is_empty() {
            return writeln!(self.text, "mkdir {root}");
        }
        writeln!(self.text, "mkdir {root}/{path}")
    }

    /// The changes so far are a revision.
    pub(crate) fn commit(&mut self) -> Result<(), AllocError> {
        self.revision = self.revision.saturating_add(1);
        self.push("commit\n")
    }

    // Runs it with its updates on one thread, and returns what it printed.
    fn output<R: Threads + Wait + Sync>(&self, rt: &R, alloc: Global) -> Result<Vec<u8>> {
        let mut reader = self.text.as_str().as_bytes();
        let mut output = Vec::new(alloc);
        if run_script(rt, alloc, &mut reader, &mut output, &IN_TURN).is_err() {
            bail!("the script ended before its time");
        }
        Ok(output)
    }

    /// What it prints when it is run with its updates on one thread.
    pub(crate) fn run<R: Threads + Wait + Sync>(&self, rt: &R, alloc: Global) -> Result<Digest> {
        let output = self.output(rt, alloc)?;
        let mut digest = Digest::new();
        digest.tell(&output);
        Ok(digest)
    }
}
