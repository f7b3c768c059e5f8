//! What is written of a node.
ghost use Rattle.std.specs.Prelude.{◌≡◌, ◌++◌, ◌∷◌, [], ℕ, List, Option, Some, option_map, IfOk, OnOk};
ghost use Rattle.std.specs.Option.{option_copied};
ghost use Rattle.svn_types.specs.PathTexts.{path_text};
ghost use Rattle.svn_repo.specs.History.{node_at, look};
ghost use Rattle.svn_repo.specs.Readings.{entries_of};
ghost use Rattle.svn_wire.specs.Writing.{text_bytes};
ghost use Rattle.svn_wire_calls.specs.Calls.{checksum};
ghost use Rattle.svn_wire_calls.specs.declared.entered.Entered.{Entered};
ghost use Rattle.svn_replies.specs.Answers.{listed};
ghost use Rattle.svn_replies.specs.Commands.{text_if, props_at, inherited_pairs, inherited_from, IsStatOf};
ghost use Rattle.svn_replies.specs.LastChanges.{IsChangeOrNone};
ghost use Rattle.svn_replies.specs.NodeTexts.{file_text, sum_of};
ghost use Rattle.svn_replies.specs.NodeBytes.{date_bytes, change_bytes, change_pairs, entry_bytes, pairs_bytes, props_bytes, IsEntry, ArePropsIf, AreEntries, AreEntriesIf};

use crate::session::{Place, View};
use crate::writing::{
    push_bool, push_close, push_done, push_kind, push_known_pair, push_open, push_optional,
    push_pair, push_pairs, push_rev, push_rev_pair,
};
use std::alloc::{AllocError, Global};
use svn_repo::NodeId;
use svn_types::{Name, Props, RelPath, Rev, Text};
use svn_wire::{push_number, push_text};
use svn_wire_calls::{Entered, push_path, push_some};

/// The date of a revision that has none: the client reads no entry without one.
const NO_DATE: &[u8] = b"( 27:1970-01-01T00:00:00.000000Z ) ";

// A list of a date.
fn push_date(out: &mut Vec<u8>, date: &Option<Text>) -> Result<(), AllocError>
    ensures { OnOk result (out.new.items ≡ out.old.items ++ date_bytes date.now) }
{
    match date {
        Some(date) => push_optional(out, Some(date)),
        None => out.extend_from_slice(NO_DATE),
    }
}

// The last change of a node: its revision, its date and its author.
fn push_change(out: &mut Vec<u8>, told: &Option<Entered>) -> Result<(), AllocError>
    ensures { OnOk result (out.new.items ≡ out.old.items ++ change_bytes told.now) }
{
    match told {
        Some(told) => {
            push_rev(out, told.rev)?;
            push_date(out, &told.date)?;
            push_optional(out, told.author.as_ref())
        }
        // of a node there is one
        None => {
            push_rev(out, Rev(0))?;
            push_date(out, &None)?;
            push_optional(out, None)
        }
    }
}

// A last change as properties that a server makes.
fn push_known_change_pairs(out: &mut Vec<u8>, told: &Entered) -> Result<(), AllocError>
    ensures { OnOk result (out.new.items ≡ out.old.items ++ change_pairs (Some told.now)) }
{
    push_rev_pair(out, b"svn:entry:committed-rev", told.rev)?;
    push_known_pair(out, b"svn:entry:committed-date", told.date.as_ref())?;
    push_known_pair(out, b"svn:entry:last-author", told.author.as_ref())
}

// The last change of a node, if there is one, as properties that a server makes.
fn push_change_pairs(out: &mut Vec<u8>, told: &Option<Entered>) -> Result<(), AllocError>
    ensures { OnOk result (out.new.items ≡ out.old.items ++ change_pairs told.now) }
{
    match told {
        Some(told) => push_known_change_pairs(out, told),
        None => Ok(()),
    }
}

impl View<'_> {
    // Kind, size, whether there are properties, and the last change of a node.
    #[tactic(auto, unfolding(crate::specs::NodeBytes::entry_bytes))]
    fn push_entry(
        &self,
        out: &mut Vec<u8>,
        node: NodeId,
        rev: Rev,
        path: &RelPath,
    ) -> Result<(), AllocError>
        ensures { OnOk result ((told : Option Entered) × IsChangeOrNone self.now.served.now rev path.now told × (out.new.items ≡ out.old.items ++ entry_bytes self.now.served.now node told)) }
    {
        let told = self.served.entered(self.alloc, rev, path)?;
        push_kind(out, self.served.repo.kind(node))?;
        push_number(out, self.served.size(node))?;
        push_bool(out, self.served.has_props(node))?;
        push_change(out, &told)
    }

    // The properties of a node, those that a server makes first.
    #[tactic(auto, unfolding(crate::specs::NodeBytes::props_bytes))]
    fn push_props(
        &self,
        out: &mut Vec<u8>,
        node: NodeId,
        rev: Rev,
        path: &RelPath,
    ) -> Result<(), AllocError>
        ensures { OnOk result ((told : Option Entered) × IsChangeOrNone self.now.served.now rev path.now told × (out.new.items ≡ out.old.items ++ props_bytes self.now.served.now.repo self.now.served.now.uuid node told)) }
    {
        let told = self.served.entered(self.alloc, rev, path)?;
        push_change_pairs(out, &told)?;
        push_pair(out, b"svn:entry:uuid", self.served.uuid.as_slice())?;
        self.push_own_props(out, node)
    }

    fn push_own_props(&self, out: &mut Vec<u8>, node: NodeId) -> Result<(), AllocError>
        ensures { OnOk result (out.new.items ≡ out.old.items ++ pairs_bytes (option_map (λ row. row.props) (node_at self.now.served.now.repo node))) }
    {
        match self.served.repo.props(node) {
            Some(props) => push_pairs(out, props),
            None => Ok(()),
        }
    }
}

impl View<'_> {
    /// The properties of a node, where they are wanted.
    pub(crate) fn push_props_if(
        &self,
        out: &mut Vec<u8>,
        wanted: bool,
        node: NodeId,
        place: &Place,
    ) -> Result<(), AllocError>
        ensures { OnOk result ((bytes : List ℕ) × ArePropsIf wanted self.now.served.now place.now.rev place.now.path node bytes × (out.new.items ≡ out.old.items ++ bytes)) }
    {
        if wanted {
            self.push_props(out, node, place.rev, &place.path)
        } else {
            Ok(())
        }
    }

    /// A list of the checksum of a file.
    pub(crate) fn push_checksum(&self, out: &mut Vec<u8>, node: NodeId) -> Result<(), AllocError>
        ensures { OnOk result (out.new.items ≡ out.old.items ++ checksum (sum_of self.now.served.now node)) }
    {
        let Some(sum) = self.served.sum(node) else {
            return out.extend_from_slice(b"( ) ");
        };
        let word = hex::encode(self.alloc, &sum.0[..])?;
        push_some(out, word.as_bytes())
    }

    /// What the repository holds of the text of a file, where it is wanted.
    pub(crate) fn text_if(&self, wanted: bool, node: NodeId) -> Result<Option<Text>, AllocError>
        ensures { IfOk result (λ text. text ≡ text_if wanted (file_text self.now.served.now.repo node)) }
    {
        match self.served.repo.shared_text(node) {
            Some(text) if wanted => Ok(Some(text.clone()?)),
            _ => Ok(None),
        }
    }

    // An entry of a directory with its name.
    fn push_named_entry(
        &self,
        out: &mut Vec<u8>,
        name: &Name,
        node: NodeId,
        place: &Place,
    ) -> Result<(), AllocError>
        ensures { OnOk result ((one : List ℕ) × IsEntry self.now.served.now place.now.rev (place.now.path ++ name.now ∷ []) node one × (out.new.items ≡ out.old.items ++ listed (text_bytes name.now ++ one))) }
    {
        let path = child(self.alloc, &place.path, name)?;
        push_open(out)?;
        push_text(out, name.as_str().as_bytes())?;
        self.push_entry(out, node, place.rev, &path)?;
        push_close(out)
    }

    // The entries of a directory.
    fn push_entries(&self, out: &mut Vec<u8>, node: NodeId, place: &Place) -> Result<(), AllocError>
        ensures { OnOk result ((bytes : List ℕ) × AreEntries self.now.served.now place.now.rev place.now.path (entries_of self.now.served.now.repo node) bytes × (out.new.items ≡ out.old.items ++ bytes)) }
    {
        let Some(entries) = self.served.repo.entries(node) else {
            return Ok(());
        };
        for (name, entry) in entries.iter() {
            self.push_named_entry(out, name, *entry, place)?;
        }
        Ok(())
    }

    /// The same, where they are wanted.
    pub(crate) fn push_entries_if(
        &self,
        out: &mut Vec<u8>,
        wanted: bool,
        node: NodeId,
        place: &Place,
    ) -> Result<(), AllocError>
        ensures { OnOk result ((bytes : List ℕ) × AreEntriesIf wanted self.now.served.now place.now.rev place.now.path (entries_of self.now.served.now.repo node) bytes × (out.new.items ≡ out.old.items ++ bytes)) }
    {
        if wanted {
            self.push_entries(out, node, place)
        } else {
            Ok(())
        }
    }

    /// What is known of the node at a path, if one is there.
    pub(crate) fn push_stat(&self, out: &mut Vec<u8>, place: &Place) -> Result<(), AllocError>
        ensures { OnOk result ((bytes : List ℕ) × IsStatOf self.now.served.now place.now.rev place.now.path (look self.now.served.now.repo place.now.rev place.now.path) bytes × (out.new.items ≡ out.old.items ++ bytes)) }
    {
        let Some(node) = self.served.repo.lookup(place.rev, &place.path) else {
            return out.extend_from_slice(b"( ) ");
        };
        push_open(out)?;
        push_open(out)?;
        self.push_entry(out, node, place.rev, &place.path)?;
        push_close(out)?;
        push_close(out)
    }

    // The properties of what is at a path.
    fn props_at(&self, rev: Rev, path: &RelPath) -> Option<&Props>
        ensures { option_copied result ≡ props_at self.now.served.now.repo rev path.now }
    {
        let node = self.served.repo.lookup(rev, path)?;
        self.served.repo.props(node)
    }

    // The properties of a directory with its path, if it has any.
    fn push_inherited(&self, out: &mut Vec<u8>, rev: Rev, path: &RelPath) -> Result<(), AllocError>
        ensures { OnOk result (out.new.items ≡ out.old.items ++ inherited_pairs path.now (props_at self.now.served.now.repo rev path.now)) }
    {
        let Some(props) = self.props_at(rev, path) else {
            return Ok(());
        };
        if props.is_empty() {
            return Ok(());
        }
        push_path_and_pairs(out, path, props)
    }

    /// The same of all directories above a path, from the root down.
    pub(crate) fn push_all_inherited(
        &self,
        out: &mut Vec<u8>,
        place: &Place,
    ) -> Result<(), AllocError>
        ensures { OnOk result (out.new.items ≡ out.old.items ++ inherited_from self.now.served.now.repo place.now.rev [] place.now.path) }
    {
        let mut above = RelPath::root(self.alloc);
        for name in place.path.components() {
            self.push_inherited(out, place.rev, &above)?;
            above = child(self.alloc, &above, name)?;
        }
        Ok(())
    }
}

// A path, and names and values.
fn push_path_and_pairs(out: &mut Vec<u8>, path: &RelPath, props: &Props) -> Result<(), AllocError>
    ensures { OnOk result (out.new.items ≡ out.old.items ++ listed (text_bytes (path_text path.now) ++ listed (pairs_bytes (Some props.now)))) }
{
    push_open(out)?;
    push_path(out, path)?;
    push_open(out)?;
    push_pairs(out, props)?;
    push_close(out)?;
    push_close(out)
}

// A path with one name more: none that a repository has is too long.
fn child(alloc: Global, path: &RelPath, name: &Name) -> Result<RelPath, AllocError>
    ensures { IfOk result (λ p. p ≡ path.now ++ name.now ∷ []) }
{
    match path.join(alloc, name) {
        Ok(path) => Ok(path),
        Err(_) => Err(AllocError),
    }
}
