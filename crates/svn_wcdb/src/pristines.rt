//! The pristine texts of a working copy, from the rows of PRISTINE (`wc-metadata.sql`).
ghost use Rattle.std.specs.Prelude.{◌≡◌, ◌↔◌, IsTrue, IfOk, [], length};
ghost use Rattle.svn_types.specs.Pairs.{InNameOrder, value_of};
ghost use Rattle.svn_wcdb.specs.Pristines.{stand_in_of, size_of, pristine_of, pristine_after, pristines_of};
ghost use Rattle.svn_wcdb.specs.Reading.{Gives, Answers};

use crate::columns::Columns;
use crate::fault::{Reason, TableName, WcdbFault};
use crate::table::TableRow;
use std::alloc::Global;
use std::collections::BTreeMap;
use std::collections::btree_map::Iter;
use std::marker::Model;
use svn_digits::{STAND_IN_LEN, is_stand_in};

/// The size in bytes of each pristine text, by its stand-in (`$sha1$` and 40 digits). A contract sees it as the pairs in byte order of the stand-ins.
#[derive(Debug, Drop)]
pub struct Pristines {
    sizes: BTreeMap<[u8; STAND_IN_LEN], u64>,
}

impl Model for Pristines {
    ghost use Rattle.std.specs.Prelude.{ℕ, List, ◌≡◌, length};
    ghost use Rattle.std.specs.List.{All};
    ghost use Rattle.std.specs.Map.{keys_of};

    ghost Value = { List (List ℕ × ℕ) };

    ghost view = { λ p. p.sizes.entries };

    ghost invariant = { λ p. All (λ k. length k ≡ 46) (keys_of p.sizes.entries) };
}

impl Pristines {
    fn new(alloc: Global) -> Pristines
        ensures { result ≡ [] }
    {
        Pristines {
            sizes: BTreeMap::new(alloc),
        }
    }

    /// How many texts there are.
    pub fn len(&self) -> usize
        ensures { result ≡ length self.now }
    {
        self.sizes.len()
    }

    /// Whether there is none.
    pub fn is_empty(&self) -> bool
        ensures { IsTrue result ↔ (self.now ≡ []) }
    {
        self.sizes.is_empty()
    }

    /// How many bytes the text with that stand-in has. None where there is no such text.
    pub fn size(&self, stand_in: &[u8]) -> Option<u64>
        ensures { result ≡ value_of self.now stand_in.now }
    {
        match <[u8; STAND_IN_LEN]>::try_from(stand_in) {
            Ok(word) => self.sizes.get(&word).copied(),
            Err(_) => None,
        }
    }

    /// The stand-ins and sizes, in byte order of the stand-ins. It takes no memory.
    pub fn iter(&self) -> Iter<'_, [u8; STAND_IN_LEN], u64>
        ensures rest { result ≡ self.now }
        ensures ordered { InNameOrder self.now }
    {
        self.sizes.iter()
    }

    // Adds the text of a row; one that was there before with the same checksum goes.
    #[tactic(auto, unfolding(crate::specs::Pristines::pristine_after))]
    fn add(&mut self, row: &TableRow) -> Result<(), WcdbFault>
        ensures { Gives (λ _. self.new) result (pristine_after row.now self.old) }
    {
        let (word, size) = read_pristine(row.bytes.as_slice())?;
        self.sizes.insert(word, size)?;
        Ok(())
    }
}

// The stand-in of a row's text.
fn stand_in_of(row: &Columns) -> Result<[u8; STAND_IN_LEN], Reason>
    ensures value { Answers (λ word. word) result (stand_in_of row.now) }
    ensures long { IfOk result (λ word. length word ≡ 46) }
{
    let Some(text) = row.text(TableName::Pristine, 0)? else {
        return Err(Reason::NoChecksum);
    };
    if !is_stand_in(text) {
        return Err(Reason::NoChecksum);
    }
    match <[u8; STAND_IN_LEN]>::try_from(text) {
        Ok(word) => Ok(word),
        Err(_) => Err(Reason::NoChecksum),
    }
}

// The size of a row's text, which isn't compressed.
fn size_of(row: &Columns) -> Result<u64, Reason>
    ensures { Answers (λ size. size) result (size_of row.now) }
{
    if !row.is_null(1) {
        return Err(Reason::Compressed);
    }
    match row.number(TableName::Pristine, 2)? {
        Some(size) => Ok(size),
        None => Err(Reason::BadColumn(TableName::Pristine, 2)),
    }
}

// The stand-in of a row's text, and its size.
#[tactic(auto, unfolding(crate::specs::Pristines::pristine_of))]
fn read_pristine(row: &[u8]) -> Result<([u8; STAND_IN_LEN], u64), Reason>
    ensures value { Answers (λ text. text) result (pristine_of row.now) }
    ensures long { IfOk result (λ text. length text.0 ≡ 46) }
{
    let columns = Columns::read(row);
    let word = stand_in_of(&columns)?;
    let size = size_of(&columns)?;
    Ok((word, size))
}

/// Reads the pristine texts of the rows of PRISTINE.
pub(crate) fn read_pristines(alloc: Global, rows: &[TableRow]) -> Result<Pristines, WcdbFault>
    ensures { Gives (λ pristines. pristines) result (pristines_of rows.now) }
{
    let mut pristines = Pristines::new(alloc);
    let mut rest = rows;
    'rows: while let Some((row, after)) = rest.split_first() {
        pristines.add(row)?;
        rest = after;
    }
    Ok(pristines)
}
