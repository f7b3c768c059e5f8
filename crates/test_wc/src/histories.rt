// Small histories.

pub(crate) const ONE_FILE: &str = "put f a; commit; put f abc; commit";

pub(crate) const NESTED: &str = "mkdir d; mkdir d/e; put d/e/x a; commit";

// A directory and a file, each changed once.
pub(crate) const MIXED: &str =
    "mkdir d; put d/x a; commit; put d/x abc; commit; put y a; commit; put y abc; commit";

pub(crate) const EMPTY_FILE: &str = "put f; commit";

// A directory where a file was.
pub(crate) const FILE_THEN_DIRECTORY: &str =
    "put f a; commit; remove f; mkdir f; commit; put f/x a; commit";

pub(crate) const TWO_DIRECTORIES: &str =
    "mkdir a; put a/x a; mkdir b; put b/y a; commit; put a/x abc; put b/y abc; commit";

// A directory that is new in the second revision, with its child.
pub(crate) const REPLACED: &str =
    "mkdir d; mkdir d/s; mkdir b; put b/y a; commit; remove d; mkdir d; mkdir d/s; commit";

// A branch, whose file is changed.
pub(crate) const BRANCHED: &str =
    "mkdir t; mkdir t/d; mkdir e; put t/f a; put t/d/x a; commit; copy 1 t b; commit; put b/f abc; commit";
