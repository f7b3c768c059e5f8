//! Two lists of properties, walked side by side in order of their names.
ghost use Rattle.std.specs.Prelude.{◌≡◌, ℕ, List, ◌∷◌, [], MatchOption};
ghost use Rattle.svn_types.specs.Pairs.{InNameOrder};
ghost use Rattle.svn_types.specs.Merging.{TakesFirst};

use crate::prop_name::PropName;
use crate::props::Props;
use crate::text::Text;
use std::cmp::Ordering;
use std::collections::btree_map::Iter;
use std::marker::Model;

/// The properties of a list that are left; the first is ready to be read.
#[derive(Drop)]
pub(crate) struct ListLeft<'a> {
    first: Option<(&'a PropName, &'a Text)>,
    rest: Iter<'a, PropName, Text>,
}

impl<'a> Model for ListLeft<'a> {
    ghost use Rattle.std.specs.Prelude.{◌≡◌, ℕ, List, [], IfNone, option_map};
    ghost use Rattle.std.specs.List.{cons_option};
    ghost use Rattle.std.specs.Map.Iter.{deref_pair};

    ghost Value = { List (List ℕ × List ℕ) };

    ghost view = { λ l. cons_option (option_map deref_pair l.first) l.rest };

    ghost invariant = { λ l. IfNone l.first (l.rest ≡ []) };
}

impl<'a> ListLeft<'a> {
    fn of(props: &'a Props) -> ListLeft<'a>
        ensures all { result ≡ props.now }
        ensures ordered { InNameOrder result }
    {
        let mut rest = props.as_map().iter();
        let first = rest.next();
        ListLeft { first, rest }
    }

    // Passes the first one.
    fn pass(&mut self)
        ensures { (e : List ℕ × List ℕ) (es : List (List ℕ × List ℕ)) → self.old ≡ e ∷ es → self.new ≡ es }
    {
        self.first = self.rest.next();
    }
}

/// A name that the old or the new properties have or both, and its old and its new value.
pub(crate) type InEither<'a> = (&'a PropName, Option<&'a Text>, Option<&'a Text>);

/// The old and the new properties that are left.
#[derive(Drop)]
pub(crate) struct PropsLeft<'a> {
    pub(crate) before: ListLeft<'a>,
    pub(crate) after: ListLeft<'a>,
}

impl<'a> PropsLeft<'a> {
    /// All of them.
    pub(crate) fn of(old: &'a Props, new: &'a Props) -> PropsLeft<'a>
        ensures before { result.before ≡ old.now }
        ensures after { result.after ≡ new.now }
        ensures ordered { InNameOrder result.before × InNameOrder result.after }
    {
        PropsLeft {
            before: ListLeft::of(old),
            after: ListLeft::of(new),
        }
    }

    /// Takes the first name that is left in either list.
    pub(crate) fn take(&mut self) -> Option<InEither<'a>>
        ensures { MatchOption result ((self.old.before ≡ []) × (self.old.after ≡ [])) (λ first. TakesFirst first self.old self.new) }
    {
        match (self.before.first, self.after.first) {
            (Some((name, old)), Some((other, new))) => match name.cmp(other) {
                Ordering::Less => {
                    self.before.pass();
                    Some((name, Some(old), None))
                }
                Ordering::Equal => {
                    self.before.pass();
                    self.after.pass();
                    Some((name, Some(old), Some(new)))
                }
                Ordering::Greater => {
                    self.after.pass();
                    Some((other, None, Some(new)))
                }
            },
            (Some((name, old)), None) => {
                self.before.pass();
                Some((name, Some(old), None))
            }
            (None, Some((name, new))) => {
                self.after.pass();
                Some((name, None, Some(new)))
            }
            (None, None) => None,
        }
    }
}
