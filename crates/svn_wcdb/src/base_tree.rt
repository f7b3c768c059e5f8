//! The base tree of a working copy: where it comes from, and its nodes.
ghost use Rattle.std.specs.Prelude.{◌≡◌, IfOk};
ghost use Rattle.svn_wcdb.specs.Bases.{seen_base, base_tree_of, base_tree_at, base_tree_in};
ghost use Rattle.svn_wcdb.specs.Reading.{Finds};
ghost use Rattle.svn_wcdb.specs.Sparse.{seen_left_out, left_out_in};

use crate::depth::Takes;
use crate::fault::TableName;
use crate::image::read_image;
use crate::left_out::LeftOut;
use crate::nodes::{References, Taken, read_nodes};
use crate::notes::{Notes, read_notes};
use crate::origin::{one_root, origin_in, repos_in};
use crate::paths::folder_text;
use crate::pristines::{Pristines, read_pristines};
use crate::refusal::Refusal;
use crate::schema::rows_of;
use crate::tree::read_table;
use std::alloc::Global;
use svn_model::BaseNode;
use svn_types::{RelPath, Text};

/// Where a working copy comes from.
#[derive(Debug, Drop)]
pub struct Origin {
    /// The repository's UUID.
    pub uuid: Text,
    /// The URL of its root, as the database has it.
    pub url: Text,
}

/// The base nodes of a working copy, in the order of their rows.
#[derive(Debug, Drop)]
pub struct BaseTree {
    /// The repository.
    pub origin: Origin,
    /// The texts that its files may have, and others that are kept.
    pub pristines: Pristines,
    /// The nodes; of a file's text its stand-in, which is among the pristine texts.
    pub nodes: Vec<(RelPath, BaseNode)>,
    /// What was passed over.
    pub notes: Notes,
}

/// Reads the base tree of a working copy from the bytes of its database, `.svn/wc.db`. Whether a journal is beside it, and whether the file changed
/// while it was read (each change raises the counter at byte 24 of the header), the caller has to look.
///
/// What it returns is what the bytes stand for (`base_tree_of`), or the first fault in this order: of the header NotADatabase, PageSize, WriteAheadLog,
/// Encoding, Format, CutOff; of the schema's table, and then of WCROOT, NODES, REPOSITORY and PRISTINE, NoTable, Loop, BadPage, TooDeep, BadOverflow and
/// BadRecord as the pages and rows come; after WCROOT NotOneRoot; after NODES NoRoot and, with the root's path, BadColumn and NoRepository; after
/// REPOSITORY NoRepository and BadColumn; after PRISTINE, row by row, BadColumn, NoChecksum and Compressed; then row by row of
/// NODES, with its path, BadColumn of the first column from the left, NotOneRoot, OtherRepository, NotUtf8 and BadPath, WrongParent, BadPresence,
/// Excluded, ServerExcluded, BadKind, Depth, IncompleteFile, NoRevision, NoReposPath, NoChecksum, NoPristine, BadProperties and BadPropName; then the
/// tables that are counted. Memory where an allocation failed.
///
/// The rows of NODES and PRISTINE are in memory while they are read: no more bytes than the file has, and some 40 for each.
pub fn read_base_tree(alloc: Global, bytes: &[u8]) -> Result<BaseTree, Refusal>
    ensures { Finds seen_base result (base_tree_of bytes.now) }
{
    read_base_tree_at(alloc, &RelPath::root(alloc), bytes)
}

/// Reads what of the base tree is at a folder and below, as a tree of its own: paths are from the folder on, also in a refusal, and the folder itself is
/// the root. What else there is in the tables isn't looked at: a row of NODES that is neither at the folder nor below is passed over before anything
/// but its path is read, and notes are of what is there, but for unfinished work, which has no path. Of the copy itself it reads the one root, the
/// root's repository, and which pristine texts there are; these are refused as [`read_base_tree`] refuses them. Where the copy has nothing at the
/// folder, there is no node.
pub fn read_base_tree_at(alloc: Global, folder: &RelPath, bytes: &[u8]) -> Result<BaseTree, Refusal>
    ensures { Finds seen_base result (base_tree_at folder.now bytes.now) }
{
    let read = read_tree(alloc, Takes::Whole, folder, bytes)?;
    Ok(read.tree)
}

/// A base tree, and what its copy leaves out.
#[derive(Debug, Drop)]
pub struct ReadTree {
    /// The tree.
    pub tree: BaseTree,
    /// What is left out; nothing of a whole copy.
    pub left_out: LeftOut,
}

/// Reads a base tree as [`read_base_tree_at`] does, and with [`Takes::Sparse`] that of a sparse copy too: a directory of depth `empty`, `files` or
/// `immediates` is one as others, and an entry that the user excluded or the server withholds is not present. What is left out is returned beside it.
/// Then Excluded and ServerExcluded don't come, and Depth only for another depth.
#[tactic(auto, unfolding(crate::specs::Bases::base_tree_in, crate::specs::Bases::tree_in))]
pub fn read_tree(
    alloc: Global,
    takes: Takes,
    folder: &RelPath,
    bytes: &[u8],
) -> Result<ReadTree, Refusal>
    ensures tree { Finds (λ r. seen_base r.tree) result (base_tree_in takes folder.now bytes.now) }
    ensures left_out { IfOk result (λ r. seen_left_out r.left_out ≡ left_out_in takes folder.now bytes.now) }
{
    let folder = folder_text(alloc, folder)?;
    let folder = folder.as_bytes();
    let image = read_image(bytes)?;
    let schema = read_table(alloc, &image, 1)?;
    let roots = rows_of(alloc, &image, &schema, TableName::Wcroot)?;
    let wc_id = one_root(&roots)?;
    let rows = rows_of(alloc, &image, &schema, TableName::Nodes)?;
    let repos_id = repos_in(alloc, folder, &rows)?;
    let repositories = rows_of(alloc, &image, &schema, TableName::Repository)?;
    let origin = origin_in(alloc, repos_id, &repositories)?;
    let texts = rows_of(alloc, &image, &schema, TableName::Pristine)?;
    let pristines = read_pristines(alloc, &texts)?;
    let to = References {
        wc_id,
        repos_id,
        folder,
        pristines: &pristines,
        takes,
    };
    let taken = read_nodes(alloc, &to, &rows)?;
    let notes = read_notes(alloc, &image, &schema, &to, &taken.found)?;
    let Taken { found, left_out } = taken;
    Ok(ReadTree {
        tree: BaseTree {
            origin,
            pristines,
            nodes: found.nodes,
            notes,
        },
        left_out,
    })
}
