//! The pairs of a map, in order.
ghost use Rattle.std.specs.Prelude.{◌≡◌, ◌∷◌, [], length, drop, MatchOption};
ghost use Rattle.std.specs.Iterator.{at_most};
ghost use Rattle.std.specs.Map.Iter.{TakesFirst, deref_pair};
ghost use Rattle.svn_name_map.specs.Runs.{joined};

use crate::run::Run;
use std::marker::Model;
use svn_types::Name;

/// The pairs of a map that are left, in order of their names. A step takes no memory. A contract sees it as these pairs.
#[derive(Debug, Drop)]
pub struct Iter<'a, V> {
    // what is left of the run that was begun: nothing only where no run is left
    names: &'a [Name],
    values: &'a [V],
    // the runs that are not begun
    runs: &'a [Run<V>],
}

impl<'a, V> Model for Iter<'a, V> {
    ghost use Rattle.std.specs.Prelude.{◌≡◌, ℕ, List, [], ◌++◌, length};
    ghost use Rattle.std.specs.List.{zip};
    ghost use Rattle.svn_name_map.specs.Runs.{joined};

    ghost Value = { List (List ℕ × V) };

    ghost view = { λ i. zip i.names.now i.values.now ++ joined i.runs.now };

    ghost invariant = { λ i. (length i.values.now ≡ length i.names.now) × (i.names.now ≡ [] → i.runs.now ≡ []) };
}

impl<'a, V> Iter<'a, V> {
    /// All pairs of these runs.
    #[inline(always)]
    pub(crate) fn of(runs: &'a [Run<V>]) -> Iter<'a, V>
        ensures { result ≡ joined runs.now }
    {
        let Some((run, runs)) = runs.split_first() else {
            return Iter {
                names: &[],
                values: &[],
                runs: &[],
            };
        };
        Iter {
            names: run.names(),
            values: run.values(),
            runs,
        }
    }

    /// The next pair, which stays.
    #[inline(always)]
    pub fn first(&self) -> Option<(&'a Name, &'a V)>
        ensures { MatchOption result (self.now ≡ []) (λ e. self.now ≡ deref_pair e ∷ drop 1 self.now) }
    {
        Some((self.names.first()?, self.values.first()?))
    }

    /// Passes the next pair.
    #[inline(always)]
    pub fn advance(&mut self)
        ensures { self.new ≡ drop 1 self.old }
    {
        self.next();
    }
}

impl<'a, V> Iterator for Iter<'a, V> {
    type Item = (&'a Name, &'a V);

    ghost next_gives = { TakesFirst deref_pair };

    ghost remaining = { λ s. at_most (length s) };

    #[inline(always)]
    fn next(&mut self) -> Option<(&'a Name, &'a V)> {
        let (name, names) = self.names.split_first()?;
        let (value, values) = self.values.split_first()?;
        let runs = self.runs;
        *self = if names.is_empty() {
            Iter::of(runs)
        } else {
            Iter {
                names,
                values,
                runs,
            }
        };
        Some((name, value))
    }

    // How many pairs there are is not looked at.
    fn size_hint(&self) -> (usize, Option<usize>) {
        (0, None)
    }
}
