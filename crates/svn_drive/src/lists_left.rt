//! What is left of a directory and of a report, name by name.
ghost use Rattle.std.specs.Prelude.{◌≡◌, ◌∷◌, ℕ, List, [], drop, unwrap_or, option_map, MatchOption};
ghost use Rattle.std.specs.Option.{option_copied};
ghost use Rattle.std.specs.Map.{keys_of};
ghost use Rattle.svn_types.specs.Pairs.{InNameOrder};
ghost use Rattle.svn_drive.specs.Firsts.{entries_at, shown_entry, first_key, InOrder, TakesValue};
ghost use Rattle.svn_drive.specs.Parts.{AreDeeper, by_name, entries_in, none_or};

use crate::report_part::ReportPart;
use std::marker::Model;
use svn_name_map::Iter;
use svn_repo::{Entries, NodeId, Repo};
use svn_types::Name;

/// The entries of a directory that are left; where there is no directory, none are.
#[derive(Drop)]
pub(crate) struct EntriesLeft<'a> {
    rest: Option<Iter<'a, NodeId>>,
}

impl<'a> Model for EntriesLeft<'a> {
    ghost use Rattle.std.specs.Prelude.{ℕ, List, [], unwrap_or};

    ghost Value = { List (List ℕ × ℕ) };

    ghost view = { λ l. unwrap_or l.rest [] };
}

/// The entries of a node, where it is a directory.
pub(crate) fn entries_at(repo: &Repo, node: Option<NodeId>) -> Option<&Entries>
    ensures { unwrap_or (option_map (λ m. m.now) result) [] ≡ entries_at repo.now node }
{
    repo.entries(node?)
}

impl<'a> EntriesLeft<'a> {
    /// All entries.
    pub(crate) fn of(entries: Option<&'a Entries>) -> EntriesLeft<'a>
        ensures all { result ≡ unwrap_or (option_map (λ m. m.now) entries.entry) [] }
        ensures ordered { InNameOrder result }
    {
        match entries {
            Some(map) => EntriesLeft {
                rest: Some(map.iter()),
            },
            None => EntriesLeft { rest: None },
        }
    }

    /// The first name.
    pub(crate) fn first_name(&self) -> Option<&'a Name>
        ensures { option_copied result ≡ first_key self.now }
    {
        match self.first() {
            Some((name, _)) => Some(name),
            None => None,
        }
    }

    /// The first entry.
    #[inline(always)]
    pub(crate) fn first(&self) -> Option<(&'a Name, &'a NodeId)>
        ensures { MatchOption result (self.now ≡ []) (λ e. self.now ≡ shown_entry e ∷ drop 1 self.now) }
    {
        match &self.rest {
            Some(entries) => entries.first(),
            None => None,
        }
    }

    /// Passes the first entry.
    #[inline(always)]
    pub(crate) fn pass(&mut self)
        ensures { (e : List ℕ × ℕ) (es : List (List ℕ × ℕ)) → self.old ≡ e ∷ es → self.new ≡ es }
    {
        if let Some(entries) = &mut self.rest {
            entries.advance();
        }
    }

    /// The node under the name, if it is the first, which is then taken.
    pub(crate) fn take(&mut self, name: &Name) -> Option<&'a NodeId>
        ensures { TakesValue name.now self.old (option_copied result) self.new }
    {
        let Some((first, node)) = self.first() else {
            return None;
        };
        if first != name {
            return None;
        }
        self.pass();
        Some(node)
    }
}

/// The entries of a report that are left below a path, by the names directly below it, with the first ready to be read. A contract sees the names
/// with the entries at or below each.
#[derive(Drop)]
pub(crate) struct ReportedLeft<'a> {
    rest: ReportPart<'a>,
    // how many names the path has
    depth: usize,
    first: Option<&'a Name>,
}

impl<'a> Model for ReportedLeft<'a> {
    ghost use Rattle.std.specs.Prelude.{◌≡◌};
    ghost use Rattle.std.specs.Option.{option_copied};
    ghost use Rattle.svn_drive.specs.Firsts.{first_key};
    ghost use Rattle.svn_drive.specs.Parts.{AreDeeper, Named, by_name, entries_in};

    ghost Value = { Named };

    ghost view = { λ l. by_name l.depth (entries_in l.rest) };

    ghost invariant = { λ l. (option_copied l.first ≡ first_key (by_name l.depth (entries_in l.rest))) × AreDeeper l.depth (entries_in l.rest) };
}

impl<'a> ReportedLeft<'a> {
    /// All entries below a path of that many names.
    pub(crate) fn of(below: ReportPart<'a>, depth: usize) -> ReportedLeft<'a>
        requires { AreDeeper depth (entries_in below) }
        ensures { result ≡ by_name depth (entries_in below.entry) }
    {
        ReportedLeft {
            rest: below,
            depth,
            first: below.first_name(depth),
        }
    }

    /// The first name.
    pub(crate) fn first_name(&self) -> Option<&'a Name>
        ensures { option_copied result ≡ first_key self.now }
    {
        self.first
    }

    /// The entries at or below the name, if it is the first, which is then taken; else none.
    pub(crate) fn take(&mut self, name: &Name) -> ReportPart<'a>
        requires { InOrder (keys_of self.old) }
        ensures { TakesValue name.now self.old (none_or (entries_in result)) self.new }
    {
        let Some(first) = self.first else {
            return ReportPart::none();
        };
        if first != name {
            return ReportPart::none();
        }
        let (taken, rest) = self.rest.split_name(self.depth, name);
        self.rest = rest;
        self.first = rest.first_name(self.depth);
        taken
    }
}
