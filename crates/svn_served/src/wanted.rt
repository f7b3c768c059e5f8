//! What a drive is asked for: `update`, `switch`, `status` and `diff`.
ghost use Rattle.std.specs.Prelude.{◌≡◌, ◌∷◌, [], None, option_map, IfOk, IfSome};
ghost use Rattle.std.specs.Option.{option_copied};
ghost use Rattle.svn_types.specs.Paths.{last_name};
ghost use Rattle.svn_repo.specs.History.{look};
ghost use Rattle.svn_wire.specs.Fields.{bool_field, optional_number};
ghost use Rattle.svn_served.specs.AskedFields.{last_rev, last_texts, update_asked, switch_asked, status_asked, diff_asked, asked_by};
ghost use Rattle.svn_served.specs.Asking.{asked_as, IsWanted, IsWantedBy};
ghost use Rattle.svn_replies.specs.Refusals.{Gives};
ghost use Rattle.svn_served.specs.Wanting.{driving_of, entry_name, updates, updates_gone, switches, entry_wanted, url_wanted, whole_mode, part_wanted, deep, wanted_with};

use crate::notes::path_below;
use std::alloc::AllocError;
use svn_drive::Request;
use svn_editor::Mode;
use svn_replies::{Refused, View, code, failed, read_path};
use svn_types::{Name, RelPath, Rev};
use svn_wire::{Token, bool_field, optional_number, text_field};

/// The entry of the client's directory that alone is driven, where one is.
#[derive(Debug, Drop)]
pub(crate) struct Entry {
    /// Its name at the client.
    pub(crate) name: Name,
    /// Its name in the report, which has the name that the target has there.
    pub(crate) reported: Name,
    /// The path in the repository of what the client has there, if no link says another one.
    pub(crate) at: RelPath,
}

/// What a drive is asked for.
#[derive(Debug, Drop)]
pub(crate) struct Wanted {
    /// The revision that it leads to, and whether it is an update or a switch.
    pub(crate) request: Request,
    /// The path in the repository of the report's root.
    pub(crate) root: RelPath,
    /// The one entry.
    pub(crate) entry: Option<Entry>,
    /// Whether texts are sent.
    pub(crate) with_texts: bool,
}

// Where a drive leads, before its paths are read.
#[derive(Drop)]
struct Aim {
    target: Rev,
    // A name that the root of the target doesn't have, if one was found.
    free: Option<Name>,
    with_texts: bool,
}

// The fields that all four commands have.
#[derive(Drop)]
struct Asked<'a> {
    rev: Option<u64>,
    entry: &'a [u8],
    recurse: bool,
    url: Option<&'a [u8]>,
    with_texts: bool,
}

#[tactic(auto, unfolding(crate::specs::AskedFields::update_asked))]
fn update_fields(fields: &[Token]) -> Option<Asked<'_>>
    ensures { option_map asked_as result ≡ update_asked fields.now }
{
    let (rev, fields) = optional_number(fields)?;
    let (entry, fields) = text_field(fields)?;
    let (recurse, _more) = bool_field(fields)?;
    Some(Asked {
        rev,
        entry,
        recurse,
        url: None,
        with_texts: true,
    })
}

#[tactic(auto, unfolding(crate::specs::AskedFields::switch_asked))]
fn switch_fields(fields: &[Token]) -> Option<Asked<'_>>
    ensures { option_map asked_as result ≡ switch_asked fields.now }
{
    let (rev, fields) = optional_number(fields)?;
    let (entry, fields) = text_field(fields)?;
    let (recurse, fields) = bool_field(fields)?;
    let (url, _more) = text_field(fields)?;
    Some(Asked {
        rev,
        entry,
        recurse,
        url: Some(url),
        with_texts: true,
    })
}

fn last_rev(fields: &[Token]) -> Option<u64>
    ensures { result ≡ last_rev (optional_number fields.now) }
{
    match optional_number(fields) {
        Some((rev, _more)) => rev,
        None => None,
    }
}

// The revision may be left out at the end.
#[tactic(auto, unfolding(crate::specs::AskedFields::status_asked))]
fn status_fields(fields: &[Token]) -> Option<Asked<'_>>
    ensures { option_map asked_as result ≡ status_asked fields.now }
{
    let (entry, fields) = text_field(fields)?;
    let (recurse, fields) = bool_field(fields)?;
    Some(Asked {
        rev: last_rev(fields),
        entry,
        recurse,
        url: None,
        with_texts: false,
    })
}

fn last_texts(fields: &[Token]) -> bool
    ensures { result ≡ last_texts (bool_field fields.now) }
{
    match bool_field(fields) {
        Some((with_texts, _more)) => with_texts,
        None => true,
    }
}

// Whether texts are wanted may be left out at the end: they are.
#[tactic(auto, unfolding(crate::specs::AskedFields::diff_asked))]
fn diff_fields(fields: &[Token]) -> Option<Asked<'_>>
    ensures { option_map asked_as result ≡ diff_asked fields.now }
{
    let (rev, fields) = optional_number(fields)?;
    let (entry, fields) = text_field(fields)?;
    let (recurse, fields) = bool_field(fields)?;
    let (_ignores_ancestry, fields) = bool_field(fields)?;
    let (url, fields) = text_field(fields)?;
    Some(Asked {
        rev,
        entry,
        recurse,
        url: Some(url),
        with_texts: last_texts(fields),
    })
}

/// Which of the four it is.
#[derive(Clone, Copy)]
pub(crate) enum Driving {
    Update,
    Switch,
    Status,
    Diff,
}

/// The command of that name, if it is one of the four.
pub(crate) fn driving_of(name: &[u8]) -> Option<Driving>
    ensures { result ≡ driving_of name.now }
{
    if name == b"update".as_slice() {
        Some(Driving::Update)
    } else if name == b"switch".as_slice() {
        Some(Driving::Switch)
    } else if name == b"status".as_slice() {
        Some(Driving::Status)
    } else if name == b"diff".as_slice() {
        Some(Driving::Diff)
    } else {
        None
    }
}

fn fields_of(driving: Driving, fields: &[Token]) -> Option<Asked<'_>>
    ensures { option_map asked_as result ≡ asked_by driving fields.now }
{
    match driving {
        Driving::Update => update_fields(fields),
        Driving::Switch => switch_fields(fields),
        Driving::Status => status_fields(fields),
        Driving::Diff => diff_fields(fields),
    }
}

// What is wanted, by its parts.
fn wanted_with(view: View<'_>, aim: &Aim, mode: Mode, root: RelPath, entry: Option<Entry>) -> Wanted
    ensures { result ≡ wanted_with view.entry.served.now aim.now mode root entry }
{
    Wanted {
        request: Request {
            target: aim.target,
            mode,
            options: view.served.options,
        },
        root,
        entry,
        with_texts: aim.with_texts,
    }
}

// A name that the root of the target doesn't have, if one is found.
fn free_name(view: View<'_>, target: Rev) -> Result<Option<Name>, AllocError>
    ensures { IfOk result (λ free. IfSome free (λ name. look view.entry.served.now.repo target (name ∷ []) ≡ None)) }
{
    let mut text = String::new(view.alloc);
    for _ in 0..255 {
        text.push('x')?;
        let Ok(name) = Name::parse(view.alloc, text.as_str()) else {
            return Err(AllocError);
        };
        let path = path_below(view.alloc, &name, &RelPath::root(view.alloc))?;
        if view.served.repo.lookup(target, &path).is_none() {
            return Ok(Some(name));
        }
    }
    Ok(None)
}

// The one name of a path.
fn only_name(view: View<'_>, path: &RelPath) -> Result<Name, Refused>
    ensures { Gives (λ name. name) result (entry_name path.now) }
{
    match path.components() {
        [name] => Ok(name.clone()?),
        _ => Err(failed(
            code::BAD_PATH,
            format!(in view.alloc; "a target that isn't one name")?,
        )),
    }
}

// The same where its directory is gone in the target: it is said of a name that the root doesn't have, so the entry is deleted.
fn update_gone(view: View<'_>, aim: &Aim, name: Name, at: RelPath) -> Result<Wanted, Refused>
    ensures { Gives (λ wanted. wanted) result (updates_gone view.entry.served.now aim.now aim.now.free name at) }
{
    let Some(free) = &aim.free else {
        return Err(failed(
            code::UNSUPPORTED,
            format!(in view.alloc; "a directory of all names isn't served")?,
        ));
    };
    let reported = free.clone()?;
    let entry = Entry { name, reported, at };
    let root = RelPath::root(view.alloc);
    Ok(wanted_with(view, aim, Mode::Update, root, Some(entry)))
}

// An update of one entry.
fn update_entry(view: View<'_>, aim: &Aim, name: Name, at: RelPath) -> Result<Wanted, Refused>
    ensures { Gives (λ wanted. wanted) result (updates view.entry.served.now view.entry.session.now aim.now name at) }
{
    if !view.served.has_directory(aim.target, &view.session.at) {
        return update_gone(view, aim, name, at);
    }
    let root = view.session.at.clone()?;
    let reported = name.clone()?;
    let entry = Entry { name, reported, at };
    Ok(wanted_with(view, aim, Mode::Update, root, Some(entry)))
}

// A switch of one entry: the client's directory is as the one that the new path is in.
fn switch_entry(
    view: View<'_>,
    aim: &Aim,
    name: Name,
    at: RelPath,
    to: &RelPath,
) -> Result<Wanted, Refused>
    ensures { Gives (λ wanted. wanted) result (switches view.entry.served.now aim.now name at to.now (last_name to.now)) }
{
    let (Some(above), Some(last)) = (to.parent(view.alloc)?, to.last_name()) else {
        return Err(failed(
            code::UNSUPPORTED,
            format!(in view.alloc;
                "a switch of an entry to the root of the repository isn't served"
            )?,
        ));
    };
    if !view.served.has_directory(aim.target, &above) {
        return Err(failed(
            code::BAD_PATH,
            format!(in view.alloc; "Target path '/{to}' does not exist")?,
        ));
    }
    let reported = last.clone()?;
    let entry = Entry { name, reported, at };
    let mode = Mode::SwitchTo(above.clone()?);
    Ok(wanted_with(view, aim, mode, above, Some(entry)))
}

// One entry of the client's directory.
fn entry_wanted(
    view: View<'_>,
    aim: &Aim,
    name: Name,
    to: Option<&RelPath>,
) -> Result<Wanted, Refused>
    ensures { Gives (λ wanted. wanted) result (entry_wanted view.entry.served.now view.entry.session.now aim.now name (option_copied to.entry)) }
{
    let at = view.session.at.join(view.alloc, &name)?;
    match to {
        Some(to) => switch_entry(view, aim, name, at, to),
        None => update_entry(view, aim, name, at),
    }
}

// The path of the URL that is named, where one is.
fn url_wanted(view: View<'_>, url: Option<&[u8]>) -> Result<Option<RelPath>, Refused>
    ensures { Gives (λ to. to) result (url_wanted view.entry.session.now (option_copied url.entry)) }
{
    match url {
        Some(url) => Ok(Some(view.session.path_of_url(view.alloc, url)?)),
        None => Ok(None),
    }
}

// How the whole of the client's directory is driven.
fn whole_mode(to: Option<RelPath>) -> Mode
    ensures { result ≡ whole_mode to }
{
    match to {
        Some(to) => Mode::SwitchTo(to),
        None => Mode::Update,
    }
}

// The whole of the client's directory, or one entry of it.
fn part_wanted(
    view: View<'_>,
    aim: &Aim,
    entry: &[u8],
    to: Option<RelPath>,
) -> Result<Wanted, Refused>
    ensures { Gives (λ wanted. wanted) result (part_wanted view.entry.served.now view.entry.session.now aim.now entry.now to) }
{
    if entry.is_empty() {
        let root = view.session.at.clone()?;
        return Ok(wanted_with(view, aim, whole_mode(to), root, None));
    }
    let path = read_path(view.alloc, entry)?;
    let name = only_name(view, &path)?;
    entry_wanted(view, aim, name, to.as_ref())
}

// A depth without directories isn't served.
fn deep(view: View<'_>, recurse: bool) -> Result<(), Refused>
    ensures { Gives (λ done. done) result (deep recurse) }
{
    if recurse {
        Ok(())
    } else {
        Err(failed(
            code::UNSUPPORTED,
            format!(in view.alloc; "a depth without directories isn't served")?,
        ))
    }
}

#[tactic(auto, unfolding(crate::specs::Wanting::wanted_of))]
fn wanted_by(view: View<'_>, asked: &Asked<'_>) -> Result<Wanted, Refused>
    ensures { IsWanted view.entry.served.now view.entry.session.now (asked_as asked.now) result }
{
    let target = view.rev(asked.rev)?;
    let free = free_name(view, target)?;
    deep(view, asked.recurse)?;
    let to = url_wanted(view, asked.url)?;
    let aim = Aim {
        target,
        free,
        with_texts: asked.with_texts,
    };
    part_wanted(view, &aim, asked.entry, to)
}

/// What a command asks for.
pub(crate) fn read_wanted(
    view: View<'_>,
    driving: Driving,
    fields: &[Token],
) -> Result<Wanted, Refused>
    ensures { IsWantedBy view.entry.served.now view.entry.session.now (asked_by driving fields.now) result }
{
    let Some(asked) = fields_of(driving, fields) else {
        return Err(Refused::BadFields);
    };
    wanted_by(view, &asked)
}
