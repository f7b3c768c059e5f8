//! The next step of a random history.

use crate::checked::Checked;
use crate::dice::Dice;
use crate::plain::{
    Base, BaseTree, Edit, History, NAMES, PROP_NAMES, PlainPath, ROOT, TEXT_COUNT, Tree, Word,
    forgetting_fault, placing_fault,
};
use crate::step::{Run, Step};
use crate::world::World;
use svn_update::Kind;

/// The newest revision of a history.
const LAST_REVISION: u64 = 6;

// The most names of a path in the repository, and of one to which a copy is switched.
const DEEPEST: usize = 5;

// The most nodes of a revision, and of a copy.
const LARGEST_TREE: usize = 20;

const LARGEST_COPY: usize = 32;

const CAPACITIES: [usize; 5] = [1, 2, 3, 64, 4096];

// How many names a history has; some may be the same.
const NAMES_EACH: usize = 4;

/// Chooses steps, with few names, so that they meet often.
#[derive(Drop)]
pub(crate) struct Chooser {
    dice: Dice,
    names: [u8; NAMES_EACH],
}

// How many nodes are at a path and below, and how many names the deepest of them has more.
fn extent(tree: &Tree, source: PlainPath) -> (usize, usize) {
    let (mut count, mut deepest) = (0usize, 0usize);
    for place in tree.keys() {
        if place.is_within(&source) {
            count = count.saturating_add(1);
            deepest = deepest.max(place.depth().saturating_sub(source.depth()));
        }
    }
    (count, deepest)
}

// Whether a tree may have what extends so far, at a path.
fn fits(nodes: usize, path: PlainPath, extent: (usize, usize)) -> bool {
    let (count, deeper) = extent;
    nodes.saturating_add(count) <= LARGEST_TREE && path.depth().saturating_add(deeper) <= DEEPEST
}

fn directory_at(tree: &Tree, place: PlainPath) -> PlainPath {
    match tree.get(&place) {
        Some(node) if node.kind == Kind::File => place.parent().unwrap_or(ROOT),
        _ => place,
    }
}

fn copied_directory_at(tree: &BaseTree, place: PlainPath) -> PlainPath {
    match tree.get(&place) {
        Some(Base::Dir { .. }) => place,
        _ => place.parent().unwrap_or(ROOT),
    }
}

fn line_at(history: &History, rev: u64, repos: PlainPath) -> Option<u64> {
    match history.look(rev, Some(repos)) {
        Some(node) => Some(node.line),
        None => None,
    }
}

fn is_refused(world: &World, checked: &Checked, step: Step) -> bool {
    let (tree, history) = (&checked.tree, &world.history);
    match step {
        Step::Place { path, rev } => placing_fault(tree, history, path, None, rev).is_some(),
        Step::Switch { path, repos, rev } => {
            placing_fault(tree, history, path, Some(repos), rev).is_some()
        }
        Step::Forget { path } => forgetting_fault(tree, path).is_some(),
        _ => false,
    }
}

impl Chooser {
    pub(crate) fn new(seed: u64, number: u64) -> Chooser {
        let mut dice = Dice::new(seed, number);
        let mut names = [1; NAMES_EACH];
        for name in &mut names {
            *name = ((dice.below(NAMES.len() as u64) & 0x7f) as u8).saturating_add(1);
        }
        Chooser { dice, names }
    }

    fn name(&mut self) -> u8 {
        self.dice.pick(&self.names, 1)
    }

    fn text(&mut self) -> Word {
        Word::nth(self.dice.below(TEXT_COUNT))
    }

    // A name in a directory that isn't too deep.
    fn path_in(&mut self, directory: PlainPath) -> PlainPath {
        let name = self.name();
        let above = if directory.depth() < DEEPEST {
            directory
        } else {
            ROOT
        };
        above.join(name).unwrap_or(ROOT)
    }

    fn new_path(&mut self, tree: &Tree) -> PlainPath {
        let place = self.dice.place(tree);
        let place = if self.dice.once_in(20) {
            place
        } else {
            directory_at(tree, place)
        };
        self.path_in(place)
    }

    fn revision(&mut self, history: &History) -> u64 {
        let latest = history.latest();
        if self.dice.once_in(40) {
            return latest.saturating_add(1);
        }
        self.dice.below(latest.saturating_add(1))
    }

    fn copy_edit(&mut self, world: &World) -> Edit {
        let rev = self.revision(&world.history);
        let path = self.new_path(&world.draft.tree);
        let Some(tree) = world.history.tree(rev) else {
            let source = ROOT;
            return Edit::CopyFrom { rev, source, path };
        };
        let source = self.dice.place(tree);
        if fits(world.draft.tree.len(), path, extent(tree, source)) {
            Edit::CopyFrom { rev, source, path }
        } else {
            Edit::Remove { path }
        }
    }

    fn prop_edit(&mut self, world: &World) -> Edit {
        let path = self.dice.place(&world.draft.tree);
        let name = self.dice.below(PROP_NAMES.len() as u64) as usize;
        let value = if self.dice.once_in(3) {
            None
        } else {
            Some(self.text())
        };
        Edit::Prop { path, name, value }
    }

    // A file, if the dice soon come to one.
    fn file_path(&mut self, tree: &Tree) -> PlainPath {
        for _ in 0..4 {
            let place = self.dice.place(tree);
            match tree.get(&place) {
                Some(node) if node.kind == Kind::File => return place,
                _ => {}
            }
        }
        self.new_path(tree)
    }

    fn make_dir(&mut self, tree: &Tree) -> Edit {
        let path = self.new_path(tree);
        Edit::MakeDir { path }
    }

    fn put_new(&mut self, tree: &Tree) -> Edit {
        let path = self.new_path(tree);
        let text = self.text();
        Edit::Put { path, text }
    }

    fn put_again(&mut self, tree: &Tree) -> Edit {
        let path = self.file_path(tree);
        let text = self.text();
        Edit::Put { path, text }
    }

    fn removal(&mut self, tree: &Tree) -> Edit {
        let path = self.dice.place(tree);
        Edit::Remove { path }
    }

    fn any_edit(&mut self, world: &World) -> Edit {
        let tree = &world.draft.tree;
        let is_full = tree.len() >= LARGEST_TREE;
        match self.dice.below(20) {
            0..=3 if !is_full => self.make_dir(tree),
            4..=8 if !is_full => self.put_new(tree),
            9..=10 => self.put_again(tree),
            11..=13 => self.prop_edit(world),
            14..=15 => self.removal(tree),
            _ => self.copy_edit(world),
        }
    }

    // A change that can be made, but for a few.
    fn edit(&mut self, world: &World) -> Edit {
        let mut edit = self.any_edit(world);
        for _ in 0..4 {
            let is_refused = world.draft.fault_of(&world.history, edit).is_some();
            if !is_refused || self.dice.once_in(20) {
                break;
            }
            edit = self.any_edit(world);
        }
        edit
    }

    // Mostly a directory.
    fn checkout_path(&mut self, tree: &Tree) -> PlainPath {
        let place = self.dice.place(tree);
        if self.dice.once_in(10) {
            place
        } else {
            directory_at(tree, place)
        }
    }

    fn checkout(&mut self, world: &World) -> Step {
        let rev = self.revision(&world.history);
        let path = match world.history.tree(rev) {
            Some(tree) if self.dice.once_in(2) => self.checkout_path(tree),
            _ => ROOT,
        };
        Step::Checkout { rev, path }
    }

    // A path of the copy, or a new one in one of its directories.
    fn copy_path(&mut self, tree: &BaseTree) -> PlainPath {
        let place = self.dice.place(tree);
        if place.depth() > DEEPEST || self.dice.once_in(3) {
            return self.path_in(copied_directory_at(tree, place));
        }
        place
    }

    fn any_build(&mut self, world: &World, checked: &Checked) -> Step {
        let path = self.copy_path(&checked.tree);
        let rev = self.revision(&world.history);
        if self.dice.once_in(5) {
            return Step::Forget { path };
        }
        if self.dice.once_in(3) {
            return Step::Place { path, rev };
        }
        let repos = match world.history.tree(rev) {
            Some(tree) => self.dice.place(tree),
            None => ROOT,
        };
        Step::Switch { path, repos, rev }
    }

    // A change of the copy that can be made, but for a few.
    fn build(&mut self, world: &World, checked: &Checked) -> Step {
        let mut step = self.any_build(world, checked);
        for _ in 0..4 {
            if !is_refused(world, checked, step) || self.dice.once_in(20) {
                break;
            }
            step = self.any_build(world, checked);
        }
        step
    }

    // A place whose node is of the line, if there is one.
    fn related_place(&mut self, tree: &Tree, line: Option<u64>) -> PlainPath {
        let mut chosen = self.dice.place(tree);
        let mut found = 0u64;
        for (place, node) in tree {
            if line == Some(node.line) {
                found = found.saturating_add(1);
                if self.dice.once_in(found) {
                    chosen = *place;
                }
            }
        }
        chosen
    }

    // A place of the target that is of the line of the copy's root, if there is one.
    fn root_place(&mut self, world: &World, checked: &Checked, rev: u64) -> PlainPath {
        match (world.history.tree(rev), checked.tree.get(&ROOT)) {
            (
                Some(tree),
                Some(
                    Base::Dir {
                        rev: own,
                        repos,
                        ..
                    },
                ),
            ) => self.related_place(tree, line_at(&world.history, *own, *repos)),
            _ => ROOT,
        }
    }

    fn cancel_after(&mut self) -> Option<u64> {
        if self.dice.once_in(2) {
            let longest = self.dice.pick(&[6, 12, 24], 6);
            Some(self.dice.below(longest))
        } else {
            None
        }
    }

    fn capacity(&mut self) -> Option<usize> {
        if self.dice.once_in(2) {
            Some(self.dice.pick(&CAPACITIES, 1))
        } else {
            None
        }
    }

    fn how(&mut self, to: Option<PlainPath>, rev: u64) -> Run {
        let cancel_after = self.cancel_after();
        let capacity = self.capacity();
        Run {
            to,
            rev,
            cancel_after,
            is_late: self.dice.once_in(3),
            capacity,
        }
    }

    fn run(&mut self, world: &World, checked: &Checked) -> Step {
        if let Some(promise) = &checked.promise {
            if !self.dice.once_in(3) {
                return Step::Run(self.how(promise.to, promise.rev));
            }
        }
        let rev = self.revision(&world.history);
        let to = if self.dice.once_in(4) {
            Some(self.root_place(world, checked, rev))
        } else {
            None
        };
        Step::Run(self.how(to, rev))
    }

    fn commit_step(&mut self, world: &World) -> Step {
        if world.draft.fault.is_some() || self.dice.once_in(4) {
            Step::Commit
        } else {
            Step::Edit(self.edit(world))
        }
    }

    fn copy_step(&mut self, world: &World, checked: &Checked) -> Step {
        let is_large = checked.tree.len() > LARGEST_COPY;
        match self.dice.below(10) {
            0 if is_large || self.dice.once_in(4) => self.checkout(world),
            0..=4 if !is_large => self.build(world, checked),
            _ => self.run(world, checked),
        }
    }

    // The first revisions and the first copy.
    fn first_step(&mut self, world: &World) -> Step {
        let latest = world.history.latest();
        if latest > 0 && (latest >= LAST_REVISION || self.dice.once_in(6)) {
            return self.checkout(world);
        }
        self.commit_step(world)
    }

    /// The next step.
    pub(crate) fn step(&mut self, world: &World) -> Step {
        let Some(checked) = &world.checked else {
            return self.first_step(world);
        };
        if world.history.latest() < LAST_REVISION && self.dice.once_in(2) {
            return self.commit_step(world);
        }
        self.copy_step(world, checked)
    }
}
