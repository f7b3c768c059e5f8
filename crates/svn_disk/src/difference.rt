//! What becomes of a node, between what one copy has of it and what another has.
ghost use Rattle.std.specs.Prelude.{◌≡◌, true, false, Some, None, IfSome};
ghost use Rattle.std.specs.Option.{option_copied};
ghost use Rattle.svn_types.specs.declared.kind.Kind.{Kind};
ghost use Rattle.svn_model.specs.Nodes.{present_kind, present_props, file_text};
ghost use Rattle.svn_disk.specs.Changes.{has_to_come, IsChangeOf};

use crate::node_file::is_same_on_disk;
use crate::plan::Change;
use svn_model::BaseNode;

// Whether two nodes have the same text and the same properties.
fn is_same_node(old: &BaseNode, new: &BaseNode) -> bool
    ensures { result ≡ true → (file_text old.now ≡ file_text new.now) × (present_props old.now ≡ present_props new.now) }
{
    old.text() == new.text() && old.props() == new.props()
}

// What becomes of a node of one kind that nothing on disk changes of.
fn change_of_record(old: &BaseNode, new: &BaseNode) -> Change
    ensures { present_kind old.now ≡ present_kind new.now → has_to_come (Some old.now) (Some new.now) ≡ false → IsChangeOf (Some old.now) (Some new.now) result }
{
    if is_same_node(old, new) {
        Change::Bumped
    } else {
        Change::Recorded
    }
}

// What becomes of a node whose kind stays.
fn change_of_kind(old: &BaseNode, new: &BaseNode) -> Change
    ensures { (kind : Kind) → present_kind old.now ≡ Some kind → present_kind new.now ≡ Some kind → IsChangeOf (Some old.now) (Some new.now) result }
{
    if is_same_on_disk(old, new) {
        change_of_record(old, new)
    } else {
        Change::Rewritten
    }
}

// What becomes of a node that is another one in the new copy.
fn change_to_other(old: &BaseNode, new: &BaseNode) -> Change
    ensures { IsChangeOf (Some old.now) (Some new.now) result }
{
    match (old.kind(), new.kind()) {
        (None, None) => Change::Bumped,
        (None, Some(_)) => Change::Added,
        (Some(_), None) => Change::Removed,
        (Some(was), Some(is)) => {
            if was == is {
                change_of_kind(old, new)
            } else {
                Change::Replaced
            }
        }
    }
}

// What becomes of a node that both copies have.
fn change_between(old: &BaseNode, new: &BaseNode) -> Option<Change>
    ensures none { result ≡ None → old.now ≡ new.now }
    ensures some { IfSome result (IsChangeOf (Some old.now) (Some new.now)) }
{
    if old == new {
        None
    } else {
        Some(change_to_other(old, new))
    }
}

// What becomes of a node that comes to where the old copy knows nothing.
fn change_from_nothing(new: &BaseNode) -> Change
    ensures { IsChangeOf None (Some new.now) result }
{
    if new.is_present() {
        Change::Added
    } else {
        Change::Bumped
    }
}

// What becomes of a node of which the new copy knows nothing.
fn change_to_nothing(old: &BaseNode) -> Change
    ensures { IsChangeOf (Some old.now) None result }
{
    if old.is_present() {
        Change::Removed
    } else {
        Change::Bumped
    }
}

/// What becomes of a path, if its nodes differ.
pub(crate) fn change_of(old: Option<&BaseNode>, new: Option<&BaseNode>) -> Option<Change>
    ensures none { result ≡ None → option_copied old.entry ≡ option_copied new.entry }
    ensures some { IfSome result (IsChangeOf (option_copied old.entry) (option_copied new.entry)) }
{
    match (old, new) {
        (None, None) => None,
        (Some(old), Some(new)) => change_between(old, new),
        (Some(old), None) => Some(change_to_nothing(old)),
        (None, Some(new)) => Some(change_from_nothing(new)),
    }
}
