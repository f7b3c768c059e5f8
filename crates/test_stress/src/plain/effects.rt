//! What the calls do to a copy, one after the other.

use crate::plain::acts::{Act, Deed};
use crate::plain::base::{Base, BaseTree, own_repos, remove_within};
use crate::plain::fault::{Fault, Result};
use crate::plain::history::{NO_VALUES, Values};
use crate::plain::plain_path::PlainPath;
use crate::plain::words::{NO_TEXT, Word};
use svn_types::Kind;

/// The revision that the calls lead to, and the path to which they switch the whole copy.
#[derive(Clone, Copy)]
pub(crate) struct Edition {
    pub(crate) target: u64,
    pub(crate) to: Option<PlainPath>,
}

// The properties after the changes that earlier calls asked for at a path.
fn changed(old: Values, earlier: &[Act], path: PlainPath) -> Values {
    let mut values = old;
    for act in earlier {
        if let Deed::Change { name, value } = act.deed {
            if act.path == path {
                if let Some(place) = values.get_mut(name) {
                    *place = value;
                }
            }
        }
    }
    values
}

// The text that earlier calls gave to a path, if they did.
fn given(old: Word, earlier: &[Act], path: PlainPath) -> Word {
    let mut text = old;
    for act in earlier {
        if let Deed::Text { text: new, .. } = act.deed {
            if act.path == path {
                text = new;
            }
        }
    }
    text
}

// A file that is added is present once it is closed.
fn add_file(tree: &mut BaseTree, path: PlainPath) -> Result<()> {
    tree.insert(path, Base::NotPresent)?;
    Ok(())
}

impl Edition {
    // The repository path of what is opened: what it had, or in a switch the parent's with the name after it.
    fn opened_repos(&self, tree: &BaseTree, path: PlainPath, had: PlainPath) -> Result<PlainPath> {
        match self.to {
            None => Ok(had),
            Some(to) if path.is_root() => Ok(to),
            Some(_) => own_repos(tree, path).ok_or(Fault("no directory is above what is opened")),
        }
    }

    fn open_directory(&self, tree: &mut BaseTree, path: PlainPath) -> Result<()> {
        let Some(
            Base::Dir {
                repos,
                complete,
                values,
                ..
            },
        ) = tree.get(&path).copied()
        else {
            return Err(Fault("what is opened is no directory"));
        };
        let repos = self.opened_repos(tree, path, repos)?;
        let opened = Base::Dir {
            rev: self.target,
            repos,
            complete: false,
            values: if complete { values } else { NO_VALUES },
        };
        tree.insert(path, opened)?;
        Ok(())
    }

    fn add_directory(&self, tree: &mut BaseTree, path: PlainPath) -> Result<()> {
        let repos = own_repos(tree, path).ok_or(Fault("no directory is above what is added"))?;
        let added = Base::Dir {
            rev: self.target,
            repos,
            complete: false,
            values: NO_VALUES,
        };
        tree.insert(path, added)?;
        Ok(())
    }

    fn close_directory(&self, tree: &mut BaseTree, path: PlainPath, earlier: &[Act]) -> Result<()> {
        let Some(
            Base::Dir {
                rev,
                repos,
                values,
                ..
            },
        ) = tree.get(&path).copied()
        else {
            return Err(Fault("what is closed is no directory"));
        };
        let closed = Base::Dir {
            rev,
            repos,
            complete: true,
            values: changed(values, earlier, path),
        };
        tree.insert(path, closed)?;
        Ok(())
    }

    fn close_file(&self, tree: &mut BaseTree, path: PlainPath, earlier: &[Act]) -> Result<()> {
        let own = own_repos(tree, path).ok_or(Fault("no directory is above a file"))?;
        let (repos, old_text, old_values) = match tree.get(&path).copied() {
            Some(
                Base::File {
                    repos,
                    text,
                    values,
                    ..
                },
            ) => (self.opened_repos(tree, path, repos)?, text, values),
            _ => (own, NO_TEXT, NO_VALUES),
        };
        let closed = Base::File {
            rev: self.target,
            repos,
            text: given(old_text, earlier, path),
            values: changed(old_values, earlier, path),
        };
        tree.insert(path, closed)?;
        Ok(())
    }

    fn take(&self, tree: &mut BaseTree, act: &Act, earlier: &[Act]) -> Result<()> {
        let is_file = act.kind == Kind::File;
        match act.deed {
            Deed::Delete { .. } => {
                remove_within(tree, act.path);
                Ok(())
            }
            Deed::Open { .. } if !is_file => self.open_directory(tree, act.path),
            Deed::Add if is_file => add_file(tree, act.path),
            Deed::Add => self.add_directory(tree, act.path),
            Deed::Close { .. } if is_file => self.close_file(tree, act.path, earlier),
            Deed::Close { .. } => self.close_directory(tree, act.path, earlier),
            Deed::Open { .. } | Deed::Change { .. } | Deed::Text { .. } => Ok(()),
        }
    }

    /// The copy after the first n of the calls between the first and the last.
    pub(crate) fn after(&self, before: &BaseTree, acts: &[Act], count: usize) -> Result<BaseTree> {
        let mut tree = before.clone()?;
        for (at, act) in acts.iter().enumerate() {
            if at < count {
                let earlier = acts.get(..at).unwrap_or(&[]);
                self.take(&mut tree, act, earlier)?;
            }
        }
        Ok(tree)
    }

    /// What the last call does: each present node gets the target revision, and in a switch its path under the new root; what isn't present
    /// goes.
    pub(crate) fn closed(&self, tree: &BaseTree) -> Result<BaseTree> {
        let mut ended = tree.clone()?;
        ended.clear();
        for (path, base) in tree {
            self.end(&mut ended, *path, base)?;
        }
        Ok(ended)
    }

    // Puts what a node is at the end where it is.
    fn end(&self, ended: &mut BaseTree, path: PlainPath, base: &Base) -> Result<()> {
        let moved = self.moved(path)?;
        if let Some(base) = self.ended(base, moved) {
            ended.insert(path, base)?;
        }
        Ok(())
    }

    // In a switch, the repository path of a path under the new root.
    fn moved(&self, path: PlainPath) -> Result<Option<PlainPath>> {
        let Some(to) = self.to else {
            return Ok(None);
        };
        let moved = to.with(path.names());
        Ok(Some(moved.ok_or(Fault("deeper than the model goes"))?))
    }

    fn ended(&self, base: &Base, moved: Option<PlainPath>) -> Option<Base> {
        let rev = self.target;
        match *base {
            Base::NotPresent => None,
            Base::File {
                repos,
                text,
                values,
                ..
            } => Some(Base::File {
                rev,
                repos: moved.unwrap_or(repos),
                text,
                values,
            }),
            Base::Dir {
                repos,
                complete,
                values,
                ..
            } => Some(Base::Dir {
                rev,
                repos: moved.unwrap_or(repos),
                complete,
                values,
            }),
        }
    }
}
