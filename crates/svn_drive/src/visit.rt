//! The walk of a drive: at each place its calls, those of the places below it, and its close.
ghost use Rattle.std.specs.Prelude.{◌≡◌, ◌+◌, ◌++◌, ◌∷◌, [], ◌≤◌, length, map, Some, None, IfOk, OnOk, if◌then◌else◌};
ghost use Rattle.std.specs.Option.{option_copied};
ghost use Rattle.md5.specs.Md5.{md5};
ghost use Rattle.svn_types.specs.Names.{depth_limit};
ghost use Rattle.svn_types.specs.Props.{changes_between};
ghost use Rattle.svn_types.specs.declared.kind.Kind.TheVariants.{File};
ghost use Rattle.svn_editor.specs.Steps.{Action, Change};
ghost use Rattle.svn_repo.specs.Readings.{text_of, kind_of, props_of};
ghost use Rattle.svn_model.specs.Steps.{gone_actions};
ghost use Rattle.svn_model.specs.Tree.{names_below, is_entered, is_late, old_props, enter_action, entry_actions, file_end, last_of};
ghost use Rattle.svn_model.specs.TreeCalls.{call_at, calls_at, in_turn, sizes, visit_calls, visit_size};
ghost use Rattle.svn_drive.specs.Waiting.{Postpones, waiting, visit_late, entered_late};
ghost use Rattle.svn_drive.specs.Walking.{IsAt, IsEntered, IsTold, WalkRuns, request_of, text_action, close_action, has_text_of, old_text, text_end, entered_calls, entered_size, late_texts_of};

use crate::entries::{revision_of, starts_empty};
use crate::making::{Progress, make, make_opening};
use crate::nodes::{
    checksum_of, checksum_of_nothing, is_directory, kind_of, props_of, shared_text, text_of,
};
use crate::place::Place;
use crate::walk::Walk;
use std::alloc::AllocError;
use svn_editor::{Call, Digest, Editor, Token};
use svn_model::Stop;
use svn_repo::{NodeId, Repo};
use svn_types::{Kind, PropChange, Props};

/// What was opened or added: its token, its kind and its node in the target.
#[derive(Clone, Copy)]
pub(crate) struct Opened {
    pub(crate) token: Token,
    pub(crate) kind: Kind,
    pub(crate) node: NodeId,
}

/// A file that gets a text: its token, its node in the target, whether it is opened, and the node whose text is replaced, if there is one.
#[derive(Clone, Copy)]
pub(crate) struct Texted {
    pub(crate) token: Token,
    pub(crate) node: NodeId,
    pub(crate) is_opened: bool,
    pub(crate) has_old: bool,
    pub(crate) old: NodeId,
}

// The text that is replaced.
fn old_text<'r>(repo: &'r Repo, file: &Texted) -> &'r [u8]
    ensures { result.now ≡ old_text repo.now file.now }
{
    if file.has_old {
        text_of(repo, file.old)
    } else {
        &[]
    }
}

// The factor by which the room for files grows. They may be those of a whole tree: so each is copied
// a third of a time on average, with a factor of two once.
const GROWTH: usize = 4;

fn postpone(later: &mut Vec<Texted>, file: Texted) -> Result<(), AllocError>
    ensures { OnOk result (later.new.items ≡ later.old.items ++ (file ∷ [])) }
{
    if later.len() == later.capacity() {
        let more = later.len().saturating_mul(GROWTH - 1);
        let _has_room = later.reserve(more).is_ok();
    }
    later.push(file)?;
    Ok(())
}

fn old_checksum(repo: &Repo, file: &Texted) -> Digest
    ensures { result ≡ md5 (old_text repo.now file.now) }
{
    if file.has_old {
        checksum_of(repo, file.old)
    } else {
        checksum_of_nothing()
    }
}

fn change_call(opened: &Opened, change: PropChange) -> Call
    ensures { result ≡ call_at [] 0 opened.now.token (Change opened.now.kind change) }
{
    let token = opened.token;
    let (name, value) = change;
    match opened.kind {
        Kind::Directory => Call::ChangeDirProp { token, name, value },
        Kind::File => Call::ChangeFileProp { token, name, value },
    }
}

impl<'a> Walk<'a> {
    // The call that opens or adds a place.
    #[inline(always)]
    fn entry_call(&self, place: &Place<'a>, opened: &Opened) -> Result<Call, AllocError>
        requires { IsAt (request_of self.now) place.now }
        ensures { IfOk result (λ c. c ≡ call_at place.now.here.path place.now.parent opened.now.token (enter_action (request_of self.now) place.now.here.path opened.now.kind)) }
    {
        let path = place.here.path.clone()?;
        let parent = place.parent;
        let token = opened.token;
        let base = revision_of(place.here.governing);
        Ok(match (place.is_touched, opened.kind) {
            (true, Kind::Directory) => {
                if path.is_root() {
                    Call::OpenRoot { base, token }
                } else {
                    Call::OpenDirectory {
                        path,
                        parent,
                        base,
                        token,
                    }
                }
            }
            (true, Kind::File) => Call::OpenFile {
                path,
                parent,
                base,
                token,
            },
            (false, Kind::Directory) => Call::AddDirectory {
                path,
                parent,
                token,
            },
            (false, Kind::File) => Call::AddFile {
                path,
                parent,
                token,
            },
        })
    }

    // The properties that the receiver has where the place is opened.
    fn old_props<'r>(&self, place: &Place<'a>, none: &'r Props) -> &'r Props
    where
        'a: 'r,
        requires at { IsAt (request_of self.now) place.now }
        requires none { none.now ≡ [] }
        ensures { result.now ≡ old_props (request_of self.now) place.now.here.path }
    {
        if !place.is_touched
            || (starts_empty(place.here.own) && is_directory(self.repo, place.source))
        {
            return none;
        }
        match place.source {
            Some(id) => props_of(self.repo, id, none),
            None => none,
        }
    }

    // The properties that the receiver has where the place is opened, as changes to those of the target.
    #[inline(always)]
    fn changes(&self, place: &Place<'a>, node: NodeId) -> Result<Vec<PropChange>, AllocError>
        requires { IsAt (request_of self.now) place.now }
        ensures { IfOk result (λ v. v.items ≡ changes_between (old_props (request_of self.now) place.now.here.path) (props_of self.now.repo.now node)) }
    {
        let none = Props::new(self.alloc);
        let old = self.old_props(place, &none);
        old.changes_to(self.alloc, props_of(self.repo, node, &none))
    }

    // Makes changes of properties.
    fn change_props<E: Editor>(
        &self,
        opened: &Opened,
        changes: Vec<PropChange>,
        editor: &mut E,
        progress: &mut Progress,
    ) -> Result<(), Stop>
        ensures runs { WalkRuns E.answers self.now (calls_at [] 0 opened.now.token (map (Change opened.now.kind) changes.items)) result editor.old editor.new progress.old progress.new }
        ensures tokens { OnOk result (progress.new.next ≡ progress.old.next) }
    {
        for change in changes {
            let call = change_call(opened, change);
            make(self.request.options.cancel_after, editor, progress, call)?;
        }
        Ok(())
    }

    // Opens or adds a place, and changes its properties.
    #[inline(always)]
    fn enter<E: Editor>(
        &self,
        place: &Place<'a>,
        opened: &Opened,
        editor: &mut E,
        progress: &mut Progress,
    ) -> Result<(), Stop>
        requires at { IsAt (request_of self.now) place.now }
        ensures runs { WalkRuns E.answers self.now (calls_at place.now.here.path place.now.parent opened.now.token (entry_actions (request_of self.now) place.now.here.path opened.now.node opened.now.kind)) result editor.old editor.new progress.old progress.new }
        ensures tokens { OnOk result (progress.new.next ≡ progress.old.next + 1) }
    {
        let call = self.entry_call(place, opened)?;
        make_opening(self.request.options.cancel_after, editor, progress, call)?;
        let changes = self.changes(place, opened.node)?;
        self.change_props(opened, changes, editor, progress)
    }

    // Deletes what is gone.
    #[inline(always)]
    fn delete_gone<E: Editor>(
        &self,
        place: &Place<'a>,
        editor: &mut E,
        progress: &mut Progress,
    ) -> Result<(), Stop>
        requires at { IsAt (request_of self.now) place.now }
        ensures runs { WalkRuns E.answers self.now (calls_at place.now.here.path place.now.parent progress.old.next (gone_actions (request_of self.now) place.now.here.path)) result editor.old editor.new progress.old progress.new }
        ensures tokens { OnOk result (progress.new.next ≡ progress.old.next) }
    {
        if !Walk::is_gone(place) {
            return Ok(());
        }
        let call = Call::DeleteEntry {
            path: place.here.path.clone()?,
            rev: revision_of(place.here.governing),
            parent: place.parent,
        };
        make(self.request.options.cancel_after, editor, progress, call)
    }

    // Whether a file that is entered gets a text.
    fn has_text(&self, file: &Texted) -> bool
        ensures { result ≡ has_text_of self.now.repo.now file.now }
    {
        let new = text_of(self.repo, file.node);
        !file.is_opened || old_text(self.repo, file) != new
    }

    // The checksum of the text that is replaced; of a new file none.
    fn base_md5(&self, file: &Texted) -> Option<Digest>
        ensures { result ≡ (if file.now.is_opened then Some (md5 (old_text self.now.repo.now file.now)) else None) }
    {
        if file.is_opened {
            Some(old_checksum(self.repo, file))
        } else {
            None
        }
    }

    // Gives a file its text.
    #[inline(always)]
    fn give_text<E: Editor>(
        &self,
        file: &Texted,
        editor: &mut E,
        progress: &mut Progress,
    ) -> Result<(), Stop>
        ensures runs { WalkRuns E.answers self.now (call_at [] 0 file.now.token (text_action self.now.repo.now file.now) ∷ []) result editor.old editor.new progress.old progress.new }
        ensures tokens { OnOk result (progress.new.next ≡ progress.old.next) }
    {
        let call = Call::ApplyText {
            token: file.token,
            base_md5: self.base_md5(file),
            text: shared_text(self.alloc, self.repo, file.node)?,
        };
        make(self.request.options.cancel_after, editor, progress, call)
    }

    #[inline(always)]
    fn close_file<E: Editor>(
        &self,
        file: &Texted,
        editor: &mut E,
        progress: &mut Progress,
    ) -> Result<(), Stop>
        ensures runs { WalkRuns E.answers self.now (call_at [] 0 file.now.token (close_action self.now.repo.now file.now) ∷ []) result editor.old editor.new progress.old progress.new }
        ensures tokens { OnOk result (progress.new.next ≡ progress.old.next) }
    {
        let call = Call::CloseFile {
            token: file.token,
            text_md5: Some(checksum_of(self.repo, file.node)),
        };
        make(self.request.options.cancel_after, editor, progress, call)
    }

    // What must be known of a file for its text.
    fn texted(&self, place: &Place<'a>, opened: &Opened) -> Texted
        requires { IsAt (request_of self.now) place.now }
        ensures told { IsTold self.now place.now.here.path opened.now.node result }
        ensures token { result.token ≡ opened.now.token }
    {
        Texted {
            token: opened.token,
            node: opened.node,
            is_opened: place.is_touched,
            has_old: place.source.is_some(),
            old: match place.source {
                Some(id) => id,
                None => opened.node,
            },
        }
    }

    // Ends a file: its text, where that differs, and its close, or both later.
    #[inline(always)]
    fn end_file<E: Editor>(
        &self,
        place: &Place<'a>,
        opened: &Opened,
        editor: &mut E,
        progress: &mut Progress,
        later: &mut Vec<Texted>,
    ) -> Result<(), Stop>
        requires at { IsAt (request_of self.now) place.now }
        requires entered { IsEntered (request_of self.now) place.now.here.path opened.now.node File }
        ensures runs { WalkRuns E.answers self.now (calls_at place.now.here.path place.now.parent opened.now.token (if is_late (request_of self.now) (late_texts_of self.now) place.now.here.path then [] else file_end (request_of self.now) place.now.here.path opened.now.node)) result editor.old editor.new progress.old progress.new }
        ensures tokens { OnOk result (progress.new.next ≡ progress.old.next) }
        ensures waits { Postpones self.now (calls_at place.now.here.path place.now.parent opened.now.token (if is_late (request_of self.now) (late_texts_of self.now) place.now.here.path then file_end (request_of self.now) place.now.here.path opened.now.node else [])) result later.old.items later.new.items }
    {
        let file = self.texted(place, opened);
        if !self.has_text(&file) {
            return self.close_file(&file, editor, progress);
        }
        if self.request.options.late_texts {
            postpone(later, file)?;
            return Ok(());
        }
        self.give_text(&file, editor, progress)?;
        self.close_file(&file, editor, progress)
    }

    // The places below a directory.
    #[cycle(visit)]
    fn visit_below<E: Editor>(
        &self,
        place: &Place<'a>,
        token: Token,
        editor: &mut E,
        progress: &mut Progress,
        later: &mut Vec<Texted>,
    ) -> Result<(), Stop>
        requires at { IsAt (request_of self.now) place.now }
        requires short { length place.now.here.path ≤ depth_limit }
        ensures runs { WalkRuns E.answers self.now (in_turn (λ q next. visit_calls (request_of self.now) (late_texts_of self.now) q token next) (visit_size (request_of self.now)) place.now.here.path progress.old.next (names_below (request_of self.now) place.now.here.path)) result editor.old editor.new progress.old progress.new }
        ensures tokens { OnOk result (progress.new.next ≡ progress.old.next + sizes (visit_size (request_of self.now)) place.now.here.path (names_below (request_of self.now) place.now.here.path)) }
        ensures waits { Postpones self.now (in_turn (λ q next. visit_late (request_of self.now) (late_texts_of self.now) q token next) (visit_size (request_of self.now)) place.now.here.path progress.old.next (names_below (request_of self.now) place.now.here.path)) result later.old.items later.new.items }
    {
        let children = self.children(place)?;
        let mut known = None;
        for below in children {
            let child = self.child(place, &below, token, &mut known)?;
            self.visit(&child, editor, progress, later)?;
        }
        Ok(())
    }

    // What was entered, from its opening to its close.
    #[cycle(visit)]
    fn visit_entered<E: Editor>(
        &self,
        place: &Place<'a>,
        opened: &Opened,
        editor: &mut E,
        progress: &mut Progress,
        later: &mut Vec<Texted>,
    ) -> Result<(), Stop>
        requires at { IsAt (request_of self.now) place.now }
        requires short { length place.now.here.path ≤ depth_limit }
        requires entered { IsEntered (request_of self.now) place.now.here.path opened.now.node opened.now.kind }
        requires token { opened.now.token ≡ progress.old.next }
        ensures runs { WalkRuns E.answers self.now (entered_calls (request_of self.now) (late_texts_of self.now) place.now.here.path place.now.parent progress.old.next opened.now.node opened.now.kind) result editor.old editor.new progress.old progress.new }
        ensures tokens { OnOk result (progress.new.next ≡ progress.old.next + entered_size (request_of self.now) place.now.here.path opened.now.kind) }
        ensures waits { Postpones self.now (entered_late (request_of self.now) (late_texts_of self.now) place.now.here.path place.now.parent progress.old.next opened.now.node opened.now.kind) result later.old.items later.new.items }
    {
        self.enter(place, opened, editor, progress)?;
        match opened.kind {
            Kind::File => self.end_file(place, opened, editor, progress, later),
            Kind::Directory => {
                self.visit_below(place, opened.token, editor, progress, later)?;
                let call = Call::CloseDirectory {
                    token: opened.token,
                };
                make(self.request.options.cancel_after, editor, progress, call)
            }
        }
    }

    /// All calls at a place and below it, but for the texts that wait.
    #[cycle(visit)]
    pub(crate) fn visit<E: Editor>(
        &self,
        place: &Place<'a>,
        editor: &mut E,
        progress: &mut Progress,
        later: &mut Vec<Texted>,
    ) -> Result<(), Stop>
        requires at { IsAt (request_of self.now) place.now }
        requires short { length place.now.here.path ≤ depth_limit }
        ensures runs { WalkRuns E.answers self.now (visit_calls (request_of self.now) (late_texts_of self.now) place.now.here.path place.now.parent progress.old.next) result editor.old editor.new progress.old progress.new }
        ensures tokens { OnOk result (progress.new.next ≡ progress.old.next + visit_size (request_of self.now) place.now.here.path) }
        ensures waits { Postpones self.now (visit_late (request_of self.now) (late_texts_of self.now) place.now.here.path place.now.parent progress.old.next) result later.old.items later.new.items }
    {
        self.delete_gone(place, editor, progress)?;
        if !self.is_entered(place) {
            return Ok(());
        }
        let Some(node) = place.target else {
            return Ok(());
        };
        let opened = Opened {
            token: progress.next_token(),
            kind: kind_of(self.repo, node),
            node,
        };
        self.visit_entered(place, &opened, editor, progress, later)
    }

    /// The texts that waited, in the order of their files.
    pub(crate) fn give_late<E: Editor>(
        &self,
        later: &[Texted],
        editor: &mut E,
        progress: &mut Progress,
    ) -> Result<(), Stop>
        ensures runs { WalkRuns E.answers self.now (waiting self.now.repo.now later.now) result editor.old editor.new progress.old progress.new }
    {
        for file in later {
            self.give_text(file, editor, progress)?;
            self.close_file(file, editor, progress)?;
        }
        Ok(())
    }
}
