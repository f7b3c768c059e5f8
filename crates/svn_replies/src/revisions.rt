//! Answers about one revision.
ghost use Rattle.std.specs.Prelude.{◌≡◌};
ghost use Rattle.svn_replies.specs.Refusals.{Answers};
ghost use Rattle.svn_replies.specs.Commands.{latest_answer, is_dated, dated, dated_answer, rev_prop_answer, rev_props_answer};

use crate::fault::Refused;
use crate::fields::prop_fields;
use crate::served::Revisions;
use crate::session::View;
use crate::writing::{
    push_close, push_end, push_open, push_optional, push_pairs, push_rev, push_success,
};
use svn_types::Rev;
use svn_wire::{Token, number_field, text_field};

/// `get-latest-rev`.
#[tactic(auto, unfolding(crate::specs::Answers::success))]
pub fn answer_latest(view: View<'_>, out: &mut Vec<u8>) -> Result<(), Refused>
    ensures { Answers out.old.items result out.new.items (latest_answer view.entry.served.now.repo) }
{
    push_success(out)?;
    push_rev(out, view.served.repo.latest())?;
    Ok(push_end(out)?)
}

// Whether a revision has a date that isn't after another.
fn is_dated(revisions: &Revisions, rev: Rev, date: &[u8]) -> bool
    ensures { result ≡ is_dated revisions.now date.now rev }
{
    match revisions.value(rev, b"svn:date") {
        Some(known) => known.as_slice().cmp(date).is_le(),
        None => false,
    }
}

// The last revision up to this one that isn't younger than a date.
fn dated(revisions: &Revisions, last: Rev, date: &[u8]) -> Rev
    ensures { result ≡ dated revisions.now date.now last }
{
    let mut found = Rev(0);
    for before in 0..last.0 {
        let rev = Rev(before + 1);
        if is_dated(revisions, rev, date) {
            found = rev;
        }
    }
    found
}

/// `get-dated-rev`: the last revision that isn't younger than a date.
#[tactic(auto, unfolding(crate::specs::Commands::dated_answer, crate::specs::Answers::success))]
pub fn answer_dated(view: View<'_>, fields: &[Token], out: &mut Vec<u8>) -> Result<(), Refused>
    ensures { Answers out.old.items result out.new.items (dated_answer view.entry.served.now.repo view.entry.served.now.revisions fields.now) }
{
    let Some((date, _more)) = text_field(fields) else {
        return Err(Refused::BadFields);
    };
    let found = dated(&view.served.revisions, view.served.repo.latest(), date);
    push_success(out)?;
    push_rev(out, found)?;
    Ok(push_end(out)?)
}

/// `rev-prop`: the value of a property of a revision.
#[tactic(auto, unfolding(crate::specs::Commands::rev_prop_answer, crate::specs::Answers::success))]
pub fn answer_rev_prop(view: View<'_>, fields: &[Token], out: &mut Vec<u8>) -> Result<(), Refused>
    ensures { Answers out.old.items result out.new.items (rev_prop_answer view.entry.served.now.repo view.entry.served.now.revisions fields.now) }
{
    let Some((rev, name)) = prop_fields(fields) else {
        return Err(Refused::BadFields);
    };
    let rev = view.known(Rev(rev))?;
    push_success(out)?;
    push_optional(out, view.served.revisions.value(rev, name))?;
    Ok(push_end(out)?)
}

/// `rev-proplist`: the properties of a revision.
#[tactic(auto, unfolding(crate::specs::Commands::rev_props_answer, crate::specs::Answers::success))]
pub fn answer_rev_props(view: View<'_>, fields: &[Token], out: &mut Vec<u8>) -> Result<(), Refused>
    ensures { Answers out.old.items result out.new.items (rev_props_answer view.entry.served.now.repo view.entry.served.now.revisions fields.now) }
{
    let Some((rev, _more)) = number_field(fields) else {
        return Err(Refused::BadFields);
    };
    let rev = view.known(Rev(rev))?;
    push_success(out)?;
    push_open(out)?;
    if let Some(props) = view.served.revisions.props(rev) {
        push_pairs(out, props)?;
    }
    push_close(out)?;
    Ok(push_end(out)?)
}
