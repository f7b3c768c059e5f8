//! What reading gave, counted by words.

use anyhow::Result;
use std::alloc::Global;

/// How often each word came, in the order in which they came first.
#[derive(Drop)]
pub(crate) struct Tally {
    counts: Vec<(String, u64)>,
}

impl Tally {
    pub(crate) fn new(alloc: Global) -> Tally {
        Tally {
            counts: Vec::new(alloc),
        }
    }

    // Where the word is in the list.
    fn place_of(&self, word: &str) -> Option<usize> {
        for i in 0..self.counts.len() {
            if self.counts[i].0.as_str() == word {
                return Some(i);
            }
        }
        None
    }

    /// Counts one more of that word.
    pub(crate) fn add(&mut self, word: String) -> Result<()> {
        match self.place_of(word.as_str()) {
            Some(i) => {
                if i < self.counts.len() {
                    self.counts[i].1 = self.counts[i].1.saturating_add(1);
                }
            }
            None => self.counts.push((word, 1))?,
        }
        Ok(())
    }

    /// Each word with its number, in a line after the label.
    pub(crate) fn line(&self, alloc: Global, label: &str) -> Result<String> {
        let mut out = format!(in alloc; "{label}:")?;
        for (word, count) in &self.counts {
            out.push_str(&format!(in alloc; " {word} {count};")?)?;
        }
        Ok(out)
    }
}
