//! What is said of the nodes of a drive: when and by whom they were changed last.
ghost use Rattle.std.specs.Prelude.{◌≡◌, ◌∷◌, IfOk};
ghost use Rattle.std.specs.Option.{option_copied};
ghost use Rattle.svn_served.specs.Told.{says_nothing, reported_path};

use crate::follow::Following;
use crate::wanted::Entry;
use std::alloc::{AllocError, Global};
use svn_drive::Request;
use svn_replies::Served;
use svn_report::Report;
use svn_types::{Digest, Name, RelPath, Text};
use svn_wire_calls::{Entered, HeldTexts, SendFault, Stretch, Teller, TextMap, TextSums};

/// Says of the nodes of a drive when and by whom they were changed last.
#[derive(Clone, Copy)]
pub(crate) struct Notes<'a> {
    pub(crate) served: &'a Served,
    pub(crate) report: &'a Report,
    pub(crate) request: &'a Request,
    /// The one entry, where the drive is of one.
    pub(crate) entry: &'a Option<Entry>,
}

// Whether nothing is said of a path: of the directory of one entry a client wants nothing.
fn says_nothing(entry: Option<&Entry>, path: &RelPath) -> bool
    ensures { result ≡ says_nothing (option_copied entry.entry) path.now }
{
    match (entry, path.components()) {
        (Some(_), []) => true,
        _ => false,
    }
}

/// A path below a name.
pub(crate) fn path_below(alloc: Global, name: &Name, path: &RelPath) -> Result<RelPath, AllocError>
    ensures { IfOk result (λ p. p ≡ name.now ∷ path.now) }
{
    let Ok(top) = RelPath::root(alloc).join(alloc, name) else {
        return Err(AllocError);
    };
    match top.join_path(alloc, path) {
        Ok(path) => Ok(path),
        Err(_) => Err(AllocError),
    }
}

// The path in the report of a path of the client: the one entry has another name there.
fn reported_path(
    alloc: Global,
    entry: Option<&Entry>,
    path: &RelPath,
) -> Result<RelPath, AllocError>
    ensures { IfOk result (λ p. p ≡ reported_path (option_copied entry.entry) path.now) }
{
    match (entry, path.components()) {
        (Some(entry), [_first, ..]) => path_below(alloc, &entry.reported, &path.tail(alloc, 1)?),
        _ => path.clone(),
    }
}

impl<'a> Notes<'a> {
    // What the drive is made from.
    fn following(&self, alloc: Global) -> Following<'a>
        ensures repo { result.repo.now ≡ self.now.served.now.repo }
        ensures report { result.report.now ≡ self.now.report.now }
        ensures request { result.request.now ≡ self.now.request.now }
    {
        Following {
            alloc,
            repo: &self.served.repo,
            report: self.report,
            request: self.request,
        }
    }
}

impl Teller for Notes<'_> {
    ghost use Rattle.svn_drive.specs.Requests.{input_of};
    ghost use Rattle.svn_served.specs.Told.{Tells};

    ghost tells = { λ notes. Tells notes.served.now (input_of notes.served.now.repo notes.report.now notes.request.now) notes.entry.now };

    fn tell(&self, alloc: Global, path: &RelPath) -> Result<Option<Entered>, AllocError> {
        let entry = self.entry.as_ref();
        if says_nothing(entry, path) {
            return Ok(None);
        }
        let path = reported_path(alloc, entry, path)?;
        let path = self.following(alloc).target_path(&path)?;
        self.served.entered(alloc, self.request.target, &path)
    }

    fn held_at(&self, alloc: Global, path: &RelPath) -> Result<HeldTexts, AllocError> {
        let path = reported_path(alloc, self.entry.as_ref(), path)?;
        self.following(alloc).held_at(&path)
    }
}

// The texts of a drive are those of what is served.
impl TextMap for Notes<'_> {
    ghost use Rattle.svn_replies.specs.Texts.{IsText, IsSum};

    ghost stands_for = { λ notes. IsText notes.served.now };

    ghost sums = { λ notes. IsSum notes.served.now };

    fn is_whole(&self) -> bool {
        self.served.is_whole()
    }

    fn place(&self, alloc: Global, held: &Text) -> Result<Option<Stretch>, SendFault> {
        self.served.place(alloc, held)
    }

    fn is_text(&self, alloc: Global, held: &Text, found: &TextSums) -> Result<bool, SendFault> {
        self.served.is_text(alloc, held, found)
    }

    fn known_sum(&self, alloc: Global, held: &Text) -> Result<Option<Digest>, SendFault> {
        self.served.known_sum(alloc, held)
    }
}
