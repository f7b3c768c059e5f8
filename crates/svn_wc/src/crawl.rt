//! What a copy reports.
ghost use Rattle.std.specs.Prelude.{◌≡◌, ◌++◌, ◌∷◌, [], length, take, not, Some, IsOk, IfOk, IfErr, IfSome, OnOk, true, false, if◌then◌else◌};
ghost use Rattle.std.specs.List.{list_all};
ghost use Rattle.std.specs.Option.{option_copied, option_map};
ghost use Rattle.svn_model.specs.Nodes.{get_in, is_dir, is_present, is_incomplete, node_revision, node_path};
ghost use Rattle.svn_model.specs.Crawl.{crawl};
ghost use Rattle.svn_wc.specs.Aboves.{mark};
ghost use Rattle.svn_wc.specs.Crawling.{Reports, last_of};
ghost use Rattle.svn_wc.specs.Unswitched.{is_level};

use crate::above::Above;
use crate::working_copy::WorkingCopy;
use std::alloc::{AllocError, Global};
use svn_model::{BaseNode, WcFault};
use svn_nodes::Nodes;
use svn_report::{Report, Reporter, ReporterFault};
use svn_types::{RelPath, Rev, impossible};

// The result of a reporter: a crawl has no fault but Memory.
fn or_memory(answer: Result<(), ReporterFault>) -> Result<(), WcFault>
    ensures ok { OnOk result (IsOk answer) }
    ensures fault { IfErr result (λ e. e ≡ WcFault.Memory) }
{
    match answer {
        Ok(()) => Ok(()),
        Err(ReporterFault::Memory) => Err(WcFault::Memory),
        // the root comes first, then the other nodes in path order, each below a directory
        Err(_) => Err(impossible(WcFault::Memory)),
    }
}

// The revision of a node; 0 where it is not present.
fn revision(node: &BaseNode) -> Rev
    ensures { result ≡ node_revision (Some node.now) }
{
    match node.rev() {
        Some(rev) => rev,
        None => Rev(0),
    }
}

// A crawl: what was reported so far, and whether it is known that no path is switched, so that no two paths are compared.
#[derive(Drop)]
struct Crawl {
    reporter: Reporter,
    unswitched: bool,
}

// Reports a present node below a directory, where it isn't what the directory's own entry says.
fn report_present(
    crawl: &mut Crawl,
    path: &RelPath,
    above: &Above<'_>,
    node: &BaseNode,
    repos_path: &RelPath,
) -> Result<(), WcFault>
    requires present { is_present (Some node.now) ≡ true }
    requires repos_path { repos_path.now ≡ node_path (Some node.now) }
    ensures reported { OnOk result (Reports crawl.old.unswitched crawl.old.reporter path.now (Some above.now) node.now crawl.new.reporter) }
    ensures known { crawl.new.unswitched ≡ crawl.old.unswitched }
    ensures fault { IfErr result (λ e. e ≡ WcFault.Memory) }
{
    let (rev, incomplete) = (revision(node), node.is_incomplete());
    if !(crawl.unswitched || above.is_unswitched(path, repos_path)) {
        return or_memory(
            crawl
                .reporter
                .link_path(path, repos_path.clone()?, rev, incomplete),
        );
    }
    if above.node().is_incomplete() || incomplete || rev != revision(above.node()) {
        return or_memory(crawl.reporter.set_path(path, rev, incomplete));
    }
    Ok(())
}

// Reports a node below a directory.
fn report_below(
    crawl: &mut Crawl,
    path: &RelPath,
    above: &Above<'_>,
    node: &BaseNode,
) -> Result<(), WcFault>
    ensures reported { OnOk result (Reports crawl.old.unswitched crawl.old.reporter path.now (Some above.now) node.now crawl.new.reporter) }
    ensures known { crawl.new.unswitched ≡ crawl.old.unswitched }
    ensures fault { IfErr result (λ e. e ≡ WcFault.Memory) }
{
    match node {
        BaseNode::File { repos_path, .. } => report_present(crawl, path, above, node, repos_path),
        BaseNode::Dir { repos_path, .. } => report_present(crawl, path, above, node, repos_path),
        BaseNode::NotPresent => {
            if above.node().is_incomplete() {
                Ok(())
            } else {
                or_memory(crawl.reporter.delete_path(path))
            }
        }
    }
}

// Reports a node below the one above it: the root, where there is none.
fn report_node(
    crawl: &mut Crawl,
    path: &RelPath,
    above: Option<&Above<'_>>,
    node: &BaseNode,
) -> Result<(), WcFault>
    ensures reported { OnOk result (Reports crawl.old.unswitched crawl.old.reporter path.now (option_copied above.entry) node.now crawl.new.reporter) }
    ensures known { crawl.new.unswitched ≡ crawl.old.unswitched }
    ensures fault { IfErr result (λ e. e ≡ WcFault.Memory) }
{
    match above {
        Some(above) => report_below(crawl, path, above, node),
        None => {
            or_memory(
                crawl
                    .reporter
                    .set_path(path, revision(node), node.is_incomplete()),
            )
        }
    }
}

// Reports the next node. The ancestors are the directories at the root, and at each path down to the node before, and then down to this one.
fn report_next<'a>(
    crawl: &mut Crawl,
    ancestors: &mut Vec<Above<'a>>,
    path: &RelPath,
    node: &'a BaseNode,
) -> Result<(), WcFault>
    ensures reported { let above = take (length path.now) ancestors.old.items in OnOk result (Reports crawl.old.unswitched crawl.old.reporter path.now (last_of above) node.entry.now crawl.new.reporter) }
    ensures ancestors { let above = take (length path.now) ancestors.old.items in OnOk result (ancestors.new.items ≡ (if is_dir (Some node.entry.now) then above ++ (node.entry.now, mark crawl.old.unswitched path.now node.entry.now) ∷ [] else above)) }
    ensures known { crawl.new.unswitched ≡ crawl.old.unswitched }
    ensures fault { IfErr result (λ e. e ≡ WcFault.Memory) }
{
    ancestors.truncate(path.components().len());
    report_node(crawl, path, ancestors.last(), node)?;
    if node.is_directory() {
        let above = Above::marked(path, node, crawl.unswitched);
        let Ok(()) = ancestors.push(above) else {
            return Err(WcFault::Memory);
        };
    }
    Ok(())
}

// Whether a node is present and complete, and has that revision.
fn is_level(node: &BaseNode, rev: Rev) -> bool
    ensures { result ≡ is_level rev node.now }
{
    match node {
        BaseNode::File { rev: at, .. } => *at == rev,
        BaseNode::Dir {
            rev: at,
            complete,
            ..
        } => *complete && *at == rev,
        BaseNode::NotPresent => false,
    }
}

// Whether all nodes are so.
fn are_level(nodes: &Nodes, rev: Rev) -> bool
    ensures { result ≡ list_all (λ e. is_level rev e.1) nodes.now.entries }
{
    for (_, node) in nodes {
        if !is_level(node, rev) {
            return false;
        }
    }
    true
}

impl WorkingCopy {
    // Whether all nodes are known to be of the root's revision and complete, or else are found to be.
    fn is_all_level(&self, rev: Rev) -> bool
        requires root { node_revision (get_in self.now []) ≡ rev }
        ensures level { result ≡ true → list_all (λ e. is_level rev e.1) self.now ≡ true }
    {
        self.law();
        if self.known.level {
            return true;
        }
        are_level(&self.nodes, rev)
    }

    // What the copy reports if no path is switched, and all nodes are present, complete and of one revision: the root alone.
    fn crawl_level(&self, alloc: Global) -> Result<Option<Report>, WcFault>
        ensures report { IfOk result (λ o. IfSome o (λ r. r ≡ crawl self.now)) }
        ensures fault { IfErr result (λ e. e ≡ WcFault.Memory) }
    {
        self.law();
        if !self.known.unswitched {
            return Ok(None);
        }
        let root = RelPath::root(alloc);
        let Some(node) = self.nodes.get(&root) else {
            return Ok(None);
        };
        if !self.is_all_level(revision(node)) {
            return Ok(None);
        }
        let mut crawl = Crawl {
            reporter: Reporter::new_at(alloc, self.root_path(alloc)?),
            unswitched: true,
        };
        report_node(&mut crawl, &root, None, node)?;
        Ok(Some(crawl.reporter.finish_report()))
    }

    // The repository path of the root.
    fn root_path(&self, alloc: Global) -> Result<RelPath, AllocError>
        ensures { IfOk result (λ p. p ≡ node_path (get_in self.now [])) }
    {
        let root = RelPath::root(alloc);
        let Some(node) = self.nodes.get(&root) else {
            return Ok(root);
        };
        match node.repos_path() {
            Some(repos_path) => repos_path.clone(),
            None => Ok(root),
        }
    }

    /// What the copy reports to a server: the root by `set_path`, and below it, in path order, what isn't as the entries above say. Below a
    /// complete directory that is: a `delete_path` for what is not present, a `link_path` for a switched node, a `set_path` for another
    /// revision than the directory's, and for an incomplete directory. Below an incomplete directory it is each present node. Incomplete
    /// directories start empty. The only fault is Memory.
    pub fn crawl(&self, alloc: Global) -> Result<Report, WcFault>
        ensures report { IfOk result (λ r. r ≡ crawl self.now) }
        ensures fault { IfErr result (λ e. e ≡ WcFault.Memory) }
    {
        self.law();
        if let Some(report) = self.crawl_level(alloc)? {
            return Ok(report);
        }
        let mut crawl = Crawl {
            reporter: Reporter::new_at(alloc, self.root_path(alloc)?),
            unswitched: self.known.unswitched,
        };
        let mut ancestors = Vec::new(alloc);
        for (path, node) in &self.nodes {
            report_next(&mut crawl, &mut ancestors, path, node)?;
        }
        Ok(crawl.reporter.finish_report())
    }
}
