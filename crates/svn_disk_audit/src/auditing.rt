//! The audit of a working copy.
ghost use Rattle.std.specs.Prelude.{◌≡◌, ℕ, List, Option, None, Some, IfOk, IfErr, OnOk};
ghost use Rattle.svn_repo.specs.History.{new_history};
ghost use Rattle.svn_dump.specs.declared.sections.Limits.{Limits};
ghost use Rattle.svn_history.specs.Loading.{LoadsDump};
ghost use Rattle.svn_wcdb.specs.Sparse.{left_out_in, seen_left_out};
ghost use Rattle.svn_disk_audit.specs.Audits.{IsCopyOf, IsAudit, IsFrom, IsVerdict, IsAccepted, IsAuditFault};

use crate::examiner::Examiner;
use crate::fault::AuditFault;
use crate::keeping::keep_texts;
use crate::sparse::Sparse;
use std::alloc::Global;
use svn_audit::{Untrue, untrue_paths_but};
use svn_dump::Texts;
use svn_repo::Repo;
use svn_types::RelPath;
use svn_wc::WorkingCopy;
use svn_wcdb::{BaseTree, LeftOut, Notes, Origin, ReadTree, Takes, read_tree};

/// How a working copy is read.
#[derive(Clone, Copy)]
pub struct Reading<'a> {
    /// Whether sparse copies are taken.
    pub takes: Takes,
    /// How texts are kept.
    pub texts: Texts,
    /// The path of the copy that is read, with all below.
    pub below: &'a RelPath,
}

/// What is asked of a working copy.
#[derive(Clone, Copy)]
pub struct Question<'a, 'b> {
    /// The history that it is compared with.
    pub repo: &'a Repo,
    /// How it is read; its texts are kept as the history keeps them.
    pub reading: Reading<'b>,
}

/// A working copy that was read, and what its database says beside its nodes.
#[derive(Drop)]
pub struct DiskCopy {
    /// The copy.
    pub copy: WorkingCopy,
    /// The repository that it is of.
    pub origin: Origin,
    /// What was passed over.
    pub notes: Notes,
    /// What it leaves out; nothing, where only whole copies are taken.
    pub left_out: LeftOut,
}

/// A working copy, and what isn't true of it.
#[derive(Drop)]
pub struct Audited {
    /// The copy.
    pub copy: WorkingCopy,
    /// Its untrue paths, in order.
    pub untrue: Vec<Untrue>,
    /// What it leaves out.
    pub left_out: LeftOut,
}

/// The working copy that the bytes of a database stand for, or what of it is at a path and below, as a copy of its own: nothing else of it counts, and
/// paths are from there. The pristine text of each of its files is read: with [`Texts::Sha1`] and [`Texts::Md5`] each different one once, in pieces of
/// 64 KiB, and with [`Texts::Whole`] each file's, which is kept. Refused as [`read_tree`] refuses the database, then as the examiner refuses what
/// it has, then at the first file, in the order of the rows, whose pristine text isn't the one that its stand-in names, then as
/// [`WorkingCopy::from_nodes`] refuses the nodes: BadRoot where the copy has no directory at the path. Memory where an allocation failed.
pub fn read_copy<E: Examiner>(
    alloc: Global,
    reading: Reading<'_>,
    database: &[u8],
    examiner: &mut E,
) -> Result<DiskCopy, AuditFault<E::Fault>>
    ensures copy { IfOk result (λ d. IsCopyOf reading.entry.takes reading.entry.texts (E.text_at examiner.old) database.now reading.entry.below.now d.copy) }
    ensures beside { IfOk result (λ d. IsAccepted reading.entry.takes (IsFrom d.origin d.notes) database.now reading.entry.below.now) }
    ensures left_out { IfOk result (λ d. seen_left_out d.left_out ≡ left_out_in reading.entry.takes reading.entry.below.now database.now) }
    // the examiner took what the bytes of the database stand for
    ensures accepted { OnOk result (IsAccepted reading.entry.takes (E.accepts examiner.old) database.now reading.entry.below.now) }
    ensures fault { IfErr result (IsAuditFault reading.entry.takes reading.entry.texts (E.text_at examiner.old) database.now reading.entry.below.now) }
{
    let read = read_tree(alloc, reading.takes, reading.below, database)?;
    if let Err(fault) = examiner.examine(&read.tree) {
        return Err(AuditFault::Examiner(fault));
    }
    let ReadTree { tree, left_out } = read;
    let BaseTree {
        origin,
        nodes,
        notes,
        ..
    } = tree;
    let nodes = keep_texts(alloc, reading.texts, examiner, nodes)?;
    let copy = WorkingCopy::from_nodes(alloc, nodes)?;
    Ok(DiskCopy {
        copy,
        origin,
        notes,
        left_out,
    })
}

/// Audits the working copy that the bytes of a database stand for, or what of it is at a path and below: read and refused as [`read_copy`] does it, then
/// compared with the history by [`untrue_paths_but`]: a directory of depth `empty` may lack its entries, one of depth `files` those that are directories.
pub fn audit<E: Examiner>(
    alloc: Global,
    question: Question<'_, '_>,
    database: &[u8],
    examiner: &mut E,
) -> Result<Audited, AuditFault<E::Fault>>
    ensures audit { IfOk result (λ a. IsAudit question.entry.reading.takes question.entry.reading.texts (E.text_at examiner.old) question.entry.repo.now database.now question.entry.reading.below.now a.copy a.untrue.items) }
    ensures left_out { IfOk result (λ a. seen_left_out a.left_out ≡ left_out_in question.entry.reading.takes question.entry.reading.below.now database.now) }
    // the examiner took what the bytes of the database stand for
    ensures accepted { OnOk result (IsAccepted question.entry.reading.takes (E.accepts examiner.old) database.now question.entry.reading.below.now) }
    ensures fault { IfErr result (IsAuditFault question.entry.reading.takes question.entry.reading.texts (E.text_at examiner.old) database.now question.entry.reading.below.now) }
    // where the repository is the history of a dump, it is the verdict on these bytes
    ensures whole { IfOk result (λ a. (limits : Limits) (dump : List ℕ) → LoadsDump limits question.entry.reading.texts (Some dump) new_history question.entry.repo.now → IsVerdict question.entry.reading.takes question.entry.reading.texts limits dump (E.text_at examiner.old) database.now question.entry.reading.below.now a.untrue.items) }
{
    let found = read_copy(alloc, question.reading, database, examiner)?;
    let DiskCopy { copy, left_out, .. } = found;
    let untrue = untrue_paths_but(alloc, question.repo, &copy, &Sparse(&left_out))?;
    Ok(Audited {
        copy,
        untrue,
        left_out,
    })
}
