//! Which revision made a node.
ghost use Rattle.std.specs.Prelude.{◌≡◌, ◌↔◌, IsTrue, ◌<◌, ◌-◌, ℕ, [], true, false, Some};
ghost use Rattle.svn_history.specs.Made.{root_of, is_root_below, RootsRise, IsFirstFrom, IsMadeIn};

use std::alloc::Global;
use svn_repo::{NodeId, Repo};
use svn_types::{RelPath, Rev};

// Whether the root of a revision has a smaller number than a node.
fn is_root_below(repo: &Repo, top: &RelPath, rev: u64, node: NodeId) -> bool
    requires { top.now ≡ [] }
    ensures { result ≡ is_root_below repo.now node rev }
{
    match repo.lookup(Rev(rev), top) {
        Some(root) => root < node,
        None => false,
    }
}

// Whether a node is the root of a revision.
fn is_root(repo: &Repo, top: &RelPath, rev: u64, node: NodeId) -> bool
    requires { top.now ≡ [] }
    ensures { IsTrue result ↔ (root_of repo.now rev ≡ Some node) }
{
    repo.lookup(Rev(rev), top) == Some(node)
}

// The first revision whose root isn't below a node, as this one's isn't: a binary search. Roots rise.
fn first_from(repo: &Repo, top: &RelPath, node: NodeId, last: u64) -> u64
    requires root { top.now ≡ [] }
    requires last { is_root_below repo.now node last ≡ false }
    ensures below { 0 < result → is_root_below repo.now node (result - 1) ≡ true }
    ensures from { is_root_below repo.now node result ≡ false }
{
    let mut low = 0;
    let mut high = last;
    'search: while low < high {
        let middle = low + (high - low) / 2;
        if is_root_below(repo, top, middle, node) {
            low = middle + 1;
        } else {
            high = middle;
        }
    }
    low
}

// The first revision that has the root of this one.
#[tactic(auto, using(crate::proofs::MadeIn::not_below_itself))]
fn first_like(repo: &Repo, top: &RelPath, rev: u64) -> Rev
    requires { top.now ≡ [] }
    ensures { (root : ℕ) → root_of repo.now rev ≡ Some root → IsFirstFrom repo.now root result }
{
    match repo.lookup(Rev(rev), top) {
        Some(root) => Rev(first_from(repo, top, root, rev)),
        None => Rev(0),
    }
}

/// The revision that made a node.
#[tactic(auto, using(crate::proofs::MadeIn::made_at_root, crate::proofs::MadeIn::made_inside, crate::proofs::MadeIn::made_after_all))]
pub(crate) fn made_in(alloc: Global, repo: &Repo, node: NodeId) -> Rev
    ensures { RootsRise repo.now → IsMadeIn repo.now node result }
{
    let top = RelPath::root(alloc);
    let latest = repo.latest().0;
    if is_root_below(repo, &top, latest, node) {
        return first_like(repo, &top, latest);
    }
    let from = first_from(repo, &top, node, latest);
    if is_root(repo, &top, from, node) {
        return Rev(from);
    }
    first_like(repo, &top, from.saturating_sub(1))
}
