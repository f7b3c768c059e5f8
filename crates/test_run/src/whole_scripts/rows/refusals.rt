// Commands that are refused: each prints its refusal, changes nothing, and the script goes on.
use crate::whole_scripts::tables::{NOTHING, Part, TWO_REVISIONS, Table};

const FILE_AND_DIRECTORY: Part = ("put f a\nmkdir d\ncommit\n", "committed 1\n");

// A refused commit makes no revision, and the next has none of its changes.
pub(crate) static COMMITS: Table = Table {
    before: FILE_AND_DIRECTORY,
    after: ("commit\n", "committed 2\n"),
    rows: &[
        ("mkdir f\ncommit\n", "refused Exists\n"),
        ("mkdir d\ncommit\n", "refused Exists\n"),
        ("mkdir e\nmkdir e\ncommit\n", "refused Exists\n"),
        ("put f b\nmkdir f\nremove .\ncommit\n", "refused Exists\n"),
        ("copy 1 f f\ncommit\n", "refused Exists\n"),
        ("copy 1 f d\ncommit\n", "refused Exists\n"),
        ("copy 1 d f\ncommit\n", "refused Exists\n"),
        ("copy 1 d d\ncommit\n", "refused Exists\n"),
        ("mkdir g/h\ncommit\n", "refused Missing\n"),
        ("put g/h a\ncommit\n", "refused Missing\n"),
        ("remove g\ncommit\n", "refused Missing\n"),
        ("remove g/h\ncommit\n", "refused Missing\n"),
        ("remove f\nremove f\ncommit\n", "refused Missing\n"),
        ("remove f\nput f/h a\ncommit\n", "refused Missing\n"),
        ("prop g p 1\ncommit\n", "refused Missing\n"),
        ("unprop g p\ncommit\n", "refused Missing\n"),
        ("prop g/h p 1\ncommit\n", "refused Missing\n"),
        ("copy 1 x g\ncommit\n", "refused Missing\n"),
        ("copy 0 f g\ncommit\n", "refused Missing\n"),
        ("copy 1 f g/h\ncommit\n", "refused Missing\n"),
        ("copy 1 x f/h\ncommit\n", "refused Missing\n"),
        ("mkdir f/h\ncommit\n", "refused NotDir\n"),
        ("mkdir f/h/i\ncommit\n", "refused NotDir\n"),
        ("put f/h a\ncommit\n", "refused NotDir\n"),
        ("remove f/h\ncommit\n", "refused NotDir\n"),
        ("prop f/h p 1\ncommit\n", "refused NotDir\n"),
        ("unprop f/h p\ncommit\n", "refused NotDir\n"),
        ("copy 1 f/x g/h\ncommit\n", "refused NotDir\n"),
        ("copy 1 f f/h\ncommit\n", "refused NotDir\n"),
        ("put d a\ncommit\n", "refused NotFile\n"),
        ("mkdir e\nput e a\ncommit\n", "refused NotFile\n"),
        ("remove f\nmkdir f\nput f a\ncommit\n", "refused NotFile\n"),
        ("mkdir .\ncommit\n", "refused IsRoot\n"),
        ("put . a\ncommit\n", "refused IsRoot\n"),
        ("remove .\ncommit\n", "refused IsRoot\n"),
        ("remove \"\"\nmkdir f\ncommit\n", "refused IsRoot\n"),
        ("copy 1 f .\ncommit\n", "refused IsRoot\n"),
        ("copy 2 f .\ncommit\n", "refused IsRoot\n"),
        ("mkdir %2e\ncommit\n", "refused IsRoot\n"),
        ("put %2E a\ncommit\n", "refused IsRoot\n"),
        ("copy 2 f g\ncommit\n", "refused NoSuchRevision\n"),
        (
            "copy 18446744073709551615 x f/h\ncommit\n",
            "refused NoSuchRevision\n",
        ),
    ],
};

// What is refused of a copy leaves it as it was, and the repository too.
pub(crate) static OF_A_COPY: Table = Table {
    before: TWO_REVISIONS,
    after: ("show\ncommit\n", ". dir 1 .\nf file 1 f a\ncommitted 3\n"),
    rows: &[
        ("checkout 3\n", "refused NoSuchRevision\n"),
        (
            "checkout 18446744073709551615\n",
            "refused NoSuchRevision\n",
        ),
        ("checkout 3 g\n", "refused NoSuchRevision\n"),
        ("checkout 1 g\n", "refused Missing\n"),
        ("checkout 0 f\n", "refused Missing\n"),
        ("checkout 1 f/h\n", "refused Missing\n"),
        ("checkout 1 f\n", "refused BadRoot\n"),
        ("place . 1\n", "refused IsRoot\n"),
        ("place . 3\n", "refused IsRoot\n"),
        ("place f 3\n", "refused NoSuchRevision\n"),
        ("place g/h 3\n", "refused NoSuchRevision\n"),
        ("place g/h 1\n", "refused NoParent\n"),
        ("place f/h 1\n", "refused NoParent\n"),
        ("place g 1\n", "refused Missing\n"),
        ("place f 0\n", "refused Missing\n"),
        ("switch . f 1\n", "refused IsRoot\n"),
        ("switch . g 3\n", "refused IsRoot\n"),
        ("switch f f 3\n", "refused NoSuchRevision\n"),
        ("switch g/h f 1\n", "refused NoParent\n"),
        ("switch f/h g 1\n", "refused NoParent\n"),
        ("switch f g 1\n", "refused Missing\n"),
        ("forget .\n", "refused IsRoot\n"),
        ("forget g\n", "refused Missing\n"),
        ("forget f/h\n", "refused Missing\n"),
        ("drive 3\n", "refused NoSuchTarget\n"),
        (
            "drive 18446744073709551615 late\n",
            "refused NoSuchTarget\n",
        ),
        ("update 3\n", "refused NoSuchRevision\n"),
        ("update 3 0\n", "refused NoSuchRevision\n"),
        (
            "update 18446744073709551615 late\n",
            "refused NoSuchRevision\n",
        ),
        ("switch-to . 3\n", "refused NoSuchRevision\n"),
        ("switch-to g 2\n", "refused NoRoot\n"),
        ("switch-to f 2\n", "refused OtherRoot\n"),
    ],
};

// What isn't present can't be forgotten again, and nothing can be placed below it.
pub(crate) static OF_THE_FORGOTTEN: Table = Table {
    before: TWO_REVISIONS,
    after: ("show\n", ". dir 1 .\nf not-present\n"),
    rows: &[
        ("forget f\n", "ok\n"),
        ("forget f\nforget f\n", "ok\nrefused Missing\n"),
        ("forget f\nplace f/x 1\n", "ok\nrefused NoParent\n"),
    ],
};

// Without a copy nothing can be done with one, whatever the words.
pub(crate) static WITHOUT_A_COPY: Table = Table {
    before: NOTHING,
    after: NOTHING,
    rows: &[
        ("place . 9\n", "refused NoCopy\n"),
        ("switch . f 9\n", "refused NoCopy\n"),
        ("forget .\n", "refused NoCopy\n"),
        ("report\n", "refused NoCopy\n"),
        ("drive 9\n", "refused NoCopy\n"),
        ("update 0\n", "refused NoCopy\n"),
        ("update 9 0 late\n", "refused NoCopy\n"),
        ("switch-to g 9\n", "refused NoCopy\n"),
        ("show\n", "refused NoCopy\n"),
        (
            "checkout 1\nshow\n",
            "refused NoSuchRevision\nrefused NoCopy\n",
        ),
        (
            "show\ncheckout 0\nshow\nupdate 0\n",
            "refused NoCopy\nok\n. dir 0 .\nclosed 4\n",
        ),
        (
            "checkout 0\nupdate 18446744073709551615\n",
            "ok\nrefused NoSuchRevision\n",
        ),
        (
            "mkdir d\nmkdir d\ncommit\ncommit\ncheckout 1\nshow\n",
            "refused Exists\ncommitted 1\nok\n. dir 1 .\n",
        ),
    ],
};
