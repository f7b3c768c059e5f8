//! What a dump that begins late may leave out: the properties of the repository's root.
ghost use Rattle.std.specs.Prelude.{◌≡◌};
ghost use Rattle.std.specs.List.{list_any};
ghost use Rattle.svn_model.specs.Nodes.{present_path};
ghost use Rattle.svn_answers.specs.Untold.{has_untold_root, is_of_property, is_of_root, is_root_path, is_untold};

use svn_audit::{Reason, Untrue};
use svn_disk_audit::Audited;
use svn_model::BaseNode;
use svn_wc::WorkingCopy;

fn is_repos_root(node: &BaseNode) -> bool
    ensures { result ≡ is_root_path (present_path node.now) }
{
    match node.repos_path() {
        Some(path) => path.is_root(),
        None => false,
    }
}

fn has_root(copy: &WorkingCopy) -> bool
    ensures { result ≡ list_any (λ e. is_root_path (present_path e.1)) copy.now }
{
    for (_, node) in copy.nodes() {
        if is_repos_root(node) {
            return true;
        }
    }
    false
}

/// Whether a copy has the repository's root, and a dump with this first revision may not tell its properties.
pub(crate) fn has_untold_root(first: u64, copy: &WorkingCopy) -> bool
    ensures { result ≡ has_untold_root first copy.now }
{
    first > 1 && has_root(copy)
}

fn is_of_property(reason: &Reason) -> bool
    ensures { result ≡ is_of_property reason.now }
{
    matches!(reason, Reason::AnotherProperty(_))
}

fn is_of_root(untrue: &Untrue) -> bool
    ensures { result ≡ is_of_root untrue.now }
{
    untrue.repos_path.is_root() && is_of_property(&untrue.reason)
}

fn is_any_of_root(all: &[Untrue]) -> bool
    ensures { result ≡ list_any is_of_root all.now }
{
    for untrue in all {
        if is_of_root(untrue) {
            return true;
        }
    }
    false
}

fn is_untold(first: u64, untrue: &[Untrue]) -> bool
    ensures { result ≡ is_untold first untrue.now }
{
    first > 1 && is_any_of_root(untrue)
}

/// Whether the repository's root is untrue by a property, and a dump with this first revision may have left that out.
pub(crate) fn has_untold(first: u64, audited: &Audited) -> bool
    ensures { result ≡ is_untold first audited.now.untrue.items }
{
    is_untold(first, &audited.untrue)
}
