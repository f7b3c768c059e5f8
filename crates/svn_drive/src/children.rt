//! The children of a place: those at which something must be done.
ghost use Rattle.std.specs.Prelude.{◌≡◌, IsTrue, IsFalse, ◌++◌, ◌∷◌, [], ◌<◌, length, IfOk};
ghost use Rattle.std.specs.List.{AllByRecursion};
ghost use Rattle.svn_types.specs.Names.{depth_limit};
ghost use Rattle.svn_model.specs.Tree.{names_below};
ghost use Rattle.svn_drive.specs.NamesLeft.{IsBelow, AreLeft, names_left};
ghost use Rattle.svn_drive.specs.Children.{IsChild, SameWalk, names_of};
ghost use Rattle.svn_drive.specs.Walking.{IsAt, IsIdle, request_of};

use crate::check::all_hold;
use crate::child_names::{Below, NamesLeft};
use crate::entries::starts_empty;
use crate::lists_left::{EntriesLeft, ReportedLeft, entries_at};
use crate::place::Place;
use crate::walk::Walk;
use std::alloc::AllocError;
use svn_types::MAX_COMPONENTS;

impl<'a> Walk<'a> {
    // Whether a child of a kept place is one node on both sides, with nothing reported there, so that nothing is done at it.
    #[inline(always)]
    fn is_same_child(&self, place: &Place<'a>, below: &Below<'a>) -> bool
        requires at { IsAt (request_of self.now) place.now }
        requires kept { IsTrue place.now.is_kept }
        requires below { IsBelow (request_of self.now) place.now below.now }
        ensures { IsTrue result → IsIdle (request_of self.now) (place.now.here.path ++ below.now.name.now ∷ []) }
    {
        if !below.reported.is_empty() {
            false
        } else if starts_empty(place.here.governing) {
            false
        } else {
            let source = below.source.copied();
            let target = below.target.copied();
            all_hold(source.is_some(), source == target)
        }
    }

    // Whether nothing is done at a child: it is the same, the target has nothing there below what isn't kept, or its path would be too long.
    #[inline(always)]
    fn is_idle_child(&self, place: &Place<'a>, below: &Below<'a>) -> bool
        requires at { IsAt (request_of self.now) place.now }
        requires below { IsBelow (request_of self.now) place.now below.now }
        ensures idle { IsTrue result → IsIdle (request_of self.now) (place.now.here.path ++ below.now.name.now ∷ []) }
        ensures room { IsFalse result → length place.now.here.path < depth_limit }
    {
        if place.is_kept {
            if self.is_same_child(place, below) {
                return true;
            }
        } else if below.target.is_none() {
            return true;
        }
        place.here.path.components().len() >= MAX_COMPONENTS
    }

    // The names below a place, of its entries on both sides and of those that are reported.
    fn names_left(&self, place: &Place<'a>) -> NamesLeft<'a>
        requires { IsAt (request_of self.now) place.now }
        ensures all { names_left result ≡ names_below (request_of self.now) place.now.here.path }
        ensures under { AreLeft (request_of self.now) place.now result }
    {
        let old = entries_at(self.repo, place.source);
        let source = EntriesLeft::of(old);
        let new = entries_at(self.repo, place.target);
        let target = EntriesLeft::of(new);
        let reported = ReportedLeft::of(place.below, place.here.path.components().len());
        NamesLeft {
            source,
            target,
            reported,
        }
    }

    /// The children of a place at which something is done, in order.
    pub(crate) fn children(&self, place: &Place<'a>) -> Result<Vec<Below<'a>>, AllocError>
        requires { IsAt (request_of self.now) place.now }
        ensures same { IfOk result (λ v. SameWalk (request_of self.now) place.now.here.path (names_below (request_of self.now) place.now.here.path) (names_of v.items)) }
        ensures under { IfOk result (λ v. AllByRecursion (IsChild (request_of self.now) place.now) v.items) }
    {
        let mut children = Vec::new(self.alloc);
        let mut left = self.names_left(place);
        'names: while let Some(below) = left.take_first() {
            if self.is_idle_child(place, &below) {
                continue;
            }
            children.push(below)?;
        }
        Ok(children)
    }
}
