//! The base nodes of a working copy, from the rows of NODES.
ghost use Rattle.std.specs.Prelude.{◌≡◌, IfOk, OnOk};
ghost use Rattle.svn_wcdb.specs.Bases.{seen_references, seen_found, none_yet, path_from, one_node, node_after, record_in, placed_in};
ghost use Rattle.svn_wcdb.specs.Nodes.{seen};
ghost use Rattle.svn_wcdb.specs.Reading.{Gives, Finds, each};
ghost use Rattle.svn_wcdb.specs.Sparse.{left_out_after, left_out_by, left_out_by_record, seen_left_out};

use crate::columns::{is_number, path_at};
use crate::depth::{Takes, as_whole};
use crate::fault::{Reason, TableName, WcdbFault};
use crate::left_out::LeftOut;
use crate::node::base_node;
use crate::notes::Notes;
use crate::paths::{is_parent, place_in, read_path, text_from};
use crate::place::{is_in, refusal_at};
use crate::pristines::Pristines;
use crate::refusal::Refusal;
use crate::row::Row;
use crate::table::TableRow;
use std::alloc::Global;
use svn_model::BaseNode;
use svn_types::RelPath;

/// What rows of NODES refer to.
#[derive(Clone, Copy, Debug)]
pub(crate) struct References<'a> {
    /// The root of the working copy.
    pub(crate) wc_id: u64,
    /// Its repository.
    pub(crate) repos_id: u64,
    /// The text of the folder that is looked at; no byte for the root.
    pub(crate) folder: &'a [u8],
    /// The texts that its files may have.
    pub(crate) pristines: &'a Pristines,
    /// Which copies are taken.
    pub(crate) takes: Takes,
}

/// The nodes so far, and what was passed over.
#[derive(Debug, Drop)]
pub(crate) struct Found {
    pub(crate) nodes: Vec<(RelPath, BaseNode)>,
    pub(crate) notes: Notes,
}

/// What was found so far, and what is left out, where sparse copies are taken.
#[derive(Debug, Drop)]
pub(crate) struct Taken {
    pub(crate) found: Found,
    pub(crate) left_out: LeftOut,
}

// The path in the folder of a row, which names the path above as its parent.
fn path_from(alloc: Global, folder: &[u8], row: &Row, text: &[u8]) -> Result<RelPath, WcdbFault>
    ensures { Gives (λ path. path) result (path_from folder.now (seen row.now) text.now) }
{
    let Some(place) = text_from(folder, text) else {
        return Err(WcdbFault::Refused(Reason::BadColumn(TableName::Nodes, 1)));
    };
    let path = read_path(alloc, place)?;
    if is_parent(row.parent, text) {
        Ok(path)
    } else {
        Err(WcdbFault::Refused(Reason::WrongParent))
    }
}

// Appends the node of a row.
fn push_node(alloc: Global, to: &References, row: &Row, found: &mut Found) -> Result<(), WcdbFault>
    ensures { Gives (λ _. seen_found found.new) result (one_node (seen_references to.now) (seen row.now) (seen_found found.old)) }
{
    let Some(text) = row.path else {
        return Err(WcdbFault::Refused(Reason::BadColumn(TableName::Nodes, 1)));
    };
    let path = path_from(alloc, to.folder, row, text)?;
    let node = base_node(alloc, to.pristines, row)?;
    found.nodes.push((path, node))?;
    Ok(())
}

// Takes a row: its node, or what is passed over.
#[tactic(auto, unfolding(crate::specs::Bases::node_after))]
fn take_row(alloc: Global, to: &References, row: &Row, found: &mut Found) -> Result<(), WcdbFault>
    ensures { Gives (λ _. seen_found found.new) result (node_after (seen_references to.now) (seen row.now) (seen_found found.old)) }
{
    if !is_number(row.wc_id, to.wc_id) {
        return Err(WcdbFault::Refused(Reason::NotOneRoot));
    }
    if !is_number(row.op_depth, 0) {
        found.notes.add_change();
        return Ok(());
    }
    if row.is_external {
        found.notes.add_external();
        return Ok(());
    }
    if !is_number(row.repos_id, to.repos_id) {
        return Err(WcdbFault::Refused(Reason::OtherRepository));
    }
    push_node(alloc, to, row, found)
}

// In a sparse copy it is taken as one of a whole copy.
#[tactic(auto, unfolding(crate::specs::Bases::record_after, crate::specs::Bases::sparse_record_after))]
fn take_record(
    alloc: Global,
    to: &References,
    table_row: &TableRow,
    taken: &mut Taken,
) -> Result<(), WcdbFault>
    ensures found { Gives (λ _. seen_found taken.new.found) result (record_in to.now.takes (seen_references to.now) table_row.now (seen_found taken.old.found)) }
    ensures left_out { OnOk result (seen_left_out taken.new.left_out ≡ left_out_by_record to.now.takes to.now.folder.now table_row.now (seen_left_out taken.old.left_out)) }
{
    let row = Row::read(table_row.bytes.as_slice())?;
    match to.takes {
        Takes::Whole => take_row(alloc, to, &row, &mut taken.found),
        Takes::Sparse => {
            take_row(alloc, to, &as_whole(&row), &mut taken.found)?;
            taken.left_out.add(alloc, to.folder, &row)
        }
    }
}

// The same of a row that may be outside of the folder, with its path from there, if it is refused.
#[tactic(auto, unfolding(crate::specs::Bases::placed_after, crate::specs::Bases::sparse_placed_after))]
fn take_placed(
    alloc: Global,
    to: &References,
    row: &TableRow,
    taken: &mut Taken,
) -> Result<(), Refusal>
    ensures found { Finds (λ _. seen_found taken.new.found) result (placed_in to.now.takes (seen_references to.now) row.now (seen_found taken.old.found)) }
    ensures left_out { OnOk result (seen_left_out taken.new.left_out ≡ left_out_after to.now.takes to.now.folder.now (seen_left_out taken.old.left_out) row.now) }
{
    let bytes = row.bytes.as_slice();
    if !is_in(to.folder, bytes) {
        return Ok(());
    }
    match take_record(alloc, to, row, taken) {
        Ok(()) => Ok(()),
        Err(WcdbFault::Refused(reason)) => {
            let place = place_in(to.folder, path_at(bytes));
            Err(refusal_at(alloc, place, reason))
        }
        Err(WcdbFault::Memory) => Err(Refusal::from(WcdbFault::Memory)),
    }
}

/// Reads the base nodes of that working copy root and repository, at the folder and below, and what is left out there. A refusal has the path of its row
/// from there. Each row is decoded once, but for its path, if the folder isn't the root.
pub(crate) fn read_nodes(
    alloc: Global,
    to: &References,
    rows: &[TableRow],
) -> Result<Taken, Refusal>
    ensures found { Finds (λ taken. seen_found taken.found) result (each (placed_in to.now.takes (seen_references to.now)) rows.now none_yet) }
    ensures left_out { IfOk result (λ taken. seen_left_out taken.left_out ≡ left_out_by to.now.takes to.now.folder.now rows.now) }
{
    let mut taken = Taken {
        found: Found {
            nodes: Vec::new(alloc),
            notes: Notes::new(),
        },
        left_out: LeftOut::nothing(alloc),
    };
    let mut rest = rows;
    'rows: while let Some((row, after)) = rest.split_first() {
        take_placed(alloc, to, row, &mut taken)?;
        rest = after;
    }
    Ok(taken)
}
