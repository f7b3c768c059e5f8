//! Answers about one node.
ghost use Rattle.std.specs.Prelude.{◌≡◌, ◌++◌, ℕ, List, OnOk};
ghost use Rattle.svn_types.specs.declared.kind.Kind.TheVariants.{File, Directory};
ghost use Rattle.svn_replies.specs.Asking.{found_as};
ghost use Rattle.svn_replies.specs.Refusals.{Answers, Says, Gives};
ghost use Rattle.svn_replies.specs.Commands.{kind_answer, place_of, found_of, inherited_answer, IsStat, IsFile, IsDirectory, Tells};

use crate::fault::Refused;
use crate::fields::{node_fields, path_and_rev};
use crate::session::{Place, View};
use crate::writing::{push_close, push_end, push_kind, push_open, push_rev, push_success};
use std::alloc::AllocError;
use svn_repo::NodeId;
use svn_types::{Kind, Text};
use svn_wire::Token;

/// `check-path`: what is at a path.
#[tactic(auto, unfolding(crate::specs::Commands::kind_answer, crate::specs::Answers::success))]
pub fn answer_kind(view: View<'_>, fields: &[Token], out: &mut Vec<u8>) -> Result<(), Refused>
    ensures { Answers out.old.items result out.new.items (kind_answer view.entry.served.now.repo view.entry.session.now.at fields.now) }
{
    let Some((path, rev, _more)) = path_and_rev(fields) else {
        return Err(Refused::BadFields);
    };
    let rev = view.rev(rev)?;
    let path = view.path(path)?;
    let kind = match view.served.repo.lookup(rev, &path) {
        Some(node) => view.served.repo.kind(node),
        None => None,
    };
    push_success(out)?;
    push_kind(out, kind)?;
    Ok(push_end(out)?)
}

// The revision and the path that the fields name.
#[tactic(auto, unfolding(crate::specs::Commands::place_of))]
fn place_of(view: View<'_>, fields: &[Token]) -> Result<Place, Refused>
    ensures { Gives (λ place. (place.rev, place.path)) result (place_of view.entry.served.now.repo view.entry.session.now.at fields.now) }
{
    let Some((path, rev, _more)) = path_and_rev(fields) else {
        return Err(Refused::BadFields);
    };
    view.place(path, rev)
}

/// `stat`: what is known of a node.
#[tactic(auto, unfolding(crate::specs::Answers::success))]
pub fn answer_stat(view: View<'_>, fields: &[Token], out: &mut Vec<u8>) -> Result<(), Refused>
    ensures { Says (IsStat view.entry.served.now) out.old.items result out.new.items (place_of view.entry.served.now.repo view.entry.session.now.at fields.now) }
{
    let place = place_of(view, fields)?;
    push_success(out)?;
    view.push_stat(out, &place)?;
    Ok(push_end(out)?)
}

// A node, and what is wanted of it.
#[derive(Drop)]
struct Found {
    place: Place,
    node: NodeId,
    props: bool,
    content: bool,
}

// The node that the fields name, if it is of this kind.
#[tactic(auto, unfolding(crate::specs::Commands::found_of))]
fn found_of(view: View<'_>, kind: Kind, fields: &[Token]) -> Result<Found, Refused>
    ensures { Gives found_as result (found_of view.entry.served.now.repo view.entry.session.now.at kind fields.now) }
{
    let Some(asked) = node_fields(fields) else {
        return Err(Refused::BadFields);
    };
    let place = view.place(asked.path, asked.rev)?;
    let node = view.node_of(kind, place.rev, &place.path)?;
    Ok(Found {
        place,
        node,
        props: asked.props,
        content: asked.content,
    })
}

/// `get-file`: checksum and properties; and what is held of the text, where it is wanted.
pub fn answer_file(
    view: View<'_>,
    fields: &[Token],
    out: &mut Vec<u8>,
) -> Result<Option<Text>, Refused>
    ensures { Tells view.entry.served.now out.old.items result out.new.items (found_of view.entry.served.now.repo view.entry.session.now.at File fields.now) }
{
    let found = found_of(view, Kind::File, fields)?;
    let text = view.text_if(found.content, found.node)?;
    push_file(view, &found, out)?;
    Ok(text)
}

#[tactic(auto, unfolding(crate::specs::Answers::success))]
fn push_file(view: View<'_>, found: &Found, out: &mut Vec<u8>) -> Result<(), AllocError>
    ensures { OnOk result ((bytes : List ℕ) × IsFile view.entry.served.now (found_as found.now) bytes × (out.new.items ≡ out.old.items ++ bytes)) }
{
    push_success(out)?;
    view.push_checksum(out, found.node)?;
    push_rev(out, found.place.rev)?;
    push_open(out)?;
    view.push_props_if(out, found.props, found.node, &found.place)?;
    push_close(out)?;
    push_end(out)
}

/// `get-dir`: properties and entries.
pub fn answer_directory(view: View<'_>, fields: &[Token], out: &mut Vec<u8>) -> Result<(), Refused>
    ensures { Says (IsDirectory view.entry.served.now) out.old.items result out.new.items (found_of view.entry.served.now.repo view.entry.session.now.at Directory fields.now) }
{
    let found = found_of(view, Kind::Directory, fields)?;
    Ok(push_directory(view, &found, out)?)
}

#[tactic(auto, unfolding(crate::specs::Answers::success))]
fn push_directory(view: View<'_>, found: &Found, out: &mut Vec<u8>) -> Result<(), AllocError>
    ensures { OnOk result ((bytes : List ℕ) × IsDirectory view.entry.served.now (found_as found.now) bytes × (out.new.items ≡ out.old.items ++ bytes)) }
{
    push_success(out)?;
    push_rev(out, found.place.rev)?;
    push_open(out)?;
    view.push_props_if(out, found.props, found.node, &found.place)?;
    push_close(out)?;
    push_open(out)?;
    view.push_entries_if(out, found.content, found.node, &found.place)?;
    push_close(out)?;
    push_end(out)
}

/// `get-iprops`: the properties of the directories above a node, from the root down.
#[tactic(auto, unfolding(crate::specs::Commands::inherited_answer, crate::specs::Answers::success))]
pub fn answer_inherited(view: View<'_>, fields: &[Token], out: &mut Vec<u8>) -> Result<(), Refused>
    ensures { Answers out.old.items result out.new.items (inherited_answer view.entry.served.now.repo view.entry.session.now.at fields.now) }
{
    let place = place_of(view, fields)?;
    let _node = view.node(place.rev, &place.path)?;
    push_success(out)?;
    push_open(out)?;
    view.push_all_inherited(out, &place)?;
    push_close(out)?;
    Ok(push_end(out)?)
}
