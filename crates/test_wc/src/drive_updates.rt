// Drives of updates without links: the calls that an editor gets.
use crate::histories::{EMPTY_FILE, FILE_THEN_DIRECTORY, MIXED, NESTED, ONE_FILE};
use crate::steps::{HistoryCase, all};
use std::test::Fail;

// A changed file.
pub(crate) const CHANGED_FILE: HistoryCase<'static> = (
    ONE_FILE,
    "drive 2; set . 1",
    "set_target_revision 2; \
     open_root 1 #0; \
     open_file f #0 1 #1; \
     apply_text #1 0cc175b9c0f1b6a831c399e269772661 abc; \
     close_file #1 900150983cd24fb0d6963f7d28e17f72; \
     close_directory #0; \
     close_edit; \
     Ok(Closed { calls: 7 }); ",
);

// Texts after the directories.
pub(crate) const LATE_TEXTS: HistoryCase<'static> = (
    MIXED,
    "drive 4 late; set . 3; set d/x 1",
    "set_target_revision 4; \
     open_root 3 #0; \
     open_directory d #0 3 #1; \
     open_file d/x #1 1 #2; \
     close_directory #1; \
     open_file y #0 3 #3; \
     close_directory #0; \
     apply_text #2 0cc175b9c0f1b6a831c399e269772661 abc; \
     close_file #2 900150983cd24fb0d6963f7d28e17f72; \
     apply_text #3 0cc175b9c0f1b6a831c399e269772661 abc; \
     close_file #3 900150983cd24fb0d6963f7d28e17f72; \
     close_edit; \
     Ok(Closed { calls: 12 }); ",
);

// Of copies of one revision.
static PLAIN: [HistoryCase<'static>; 9] = [
    CHANGED_FILE,
    // nothing changed
    (
        ONE_FILE,
        "drive 2; set . 2",
        "set_target_revision 2; \
         open_root 2 #0; \
         close_directory #0; \
         close_edit; \
         Ok(Closed { calls: 4 }); ",
    ),
    // all is added
    (
        NESTED,
        "drive 1; set . 0",
        "set_target_revision 1; \
         open_root 0 #0; \
         add_directory d #0 #1; \
         add_directory d/e #1 #2; \
         add_file d/e/x #2 #3; \
         apply_text #3 - a; \
         close_file #3 0cc175b9c0f1b6a831c399e269772661; \
         close_directory #2; \
         close_directory #1; \
         close_directory #0; \
         close_edit; \
         Ok(Closed { calls: 11 }); ",
    ),
    // all is deleted, by its topmost directory
    (
        NESTED,
        "drive 0; set . 1",
        "set_target_revision 0; \
         open_root 1 #0; \
         delete_entry d 1 #0; \
         close_directory #0; \
         close_edit; \
         Ok(Closed { calls: 5 }); ",
    ),
    // properties, in the order of their names
    (
        "mkdir d; prop d a 1; prop d b 2; prop d c 3; commit; unprop d a; prop d b 9; prop d d 4; commit",
        "drive 2; set . 1",
        "set_target_revision 2; \
         open_root 1 #0; \
         open_directory d #0 1 #1; \
         change_dir_prop #1 a; \
         change_dir_prop #1 b 9; \
         change_dir_prop #1 d 4; \
         close_directory #1; \
         close_directory #0; \
         close_edit; \
         Ok(Closed { calls: 9 }); ",
    ),
    // a directory where a file was
    (
        FILE_THEN_DIRECTORY,
        "drive 2; set . 1",
        "set_target_revision 2; \
         open_root 1 #0; \
         delete_entry f 1 #0; \
         add_directory f #0 #1; \
         close_directory #1; \
         close_directory #0; \
         close_edit; \
         Ok(Closed { calls: 7 }); ",
    ),
    // a directory replaced by its own copy
    (
        "mkdir d; put d/x a; commit; remove d; copy 1 d d; put d/x abc; commit",
        "drive 2; set . 1",
        "set_target_revision 2; \
         open_root 1 #0; \
         open_directory d #0 1 #1; \
         open_file d/x #1 1 #2; \
         apply_text #2 0cc175b9c0f1b6a831c399e269772661 abc; \
         close_file #2 900150983cd24fb0d6963f7d28e17f72; \
         close_directory #1; \
         close_directory #0; \
         close_edit; \
         Ok(Closed { calls: 9 }); ",
    ),
    // a new file of no bytes
    (
        EMPTY_FILE,
        "drive 1; set . 0",
        "set_target_revision 1; \
         open_root 0 #0; \
         add_file f #0 #1; \
         apply_text #1 - \"\"; \
         close_file #1 d41d8cd98f00b204e9800998ecf8427e; \
         close_directory #0; \
         close_edit; \
         Ok(Closed { calls: 7 }); ",
    ),
    // its text after the directories
    (
        EMPTY_FILE,
        "drive 1 late; set . 0",
        "set_target_revision 1; \
         open_root 0 #0; \
         add_file f #0 #1; \
         close_directory #0; \
         apply_text #1 - \"\"; \
         close_file #1 d41d8cd98f00b204e9800998ecf8427e; \
         close_edit; \
         Ok(Closed { calls: 7 }); ",
    ),
];

// Of copies of more than one revision.
static MIXED_REVISIONS: [HistoryCase<'static>; 7] = [
    LATE_TEXTS,
    // a file that is older than its directory
    (
        MIXED,
        "drive 4; set . 3; set d/x 1",
        "set_target_revision 4; \
         open_root 3 #0; \
         open_directory d #0 3 #1; \
         open_file d/x #1 1 #2; \
         apply_text #2 0cc175b9c0f1b6a831c399e269772661 abc; \
         close_file #2 900150983cd24fb0d6963f7d28e17f72; \
         close_directory #1; \
         open_file y #0 3 #3; \
         apply_text #3 0cc175b9c0f1b6a831c399e269772661 abc; \
         close_file #3 900150983cd24fb0d6963f7d28e17f72; \
         close_directory #0; \
         close_edit; \
         Ok(Closed { calls: 12 }); ",
    ),
    // a file that is missing
    (
        "mkdir d; put d/x abc; commit",
        "drive 1; set . 1; delete d/x",
        "set_target_revision 1; \
         open_root 1 #0; \
         open_directory d #0 1 #1; \
         add_file d/x #1 #2; \
         apply_text #2 - abc; \
         close_file #2 900150983cd24fb0d6963f7d28e17f72; \
         close_directory #1; \
         close_directory #0; \
         close_edit; \
         Ok(Closed { calls: 9 }); ",
    ),
    // an update that was stopped
    (
        ONE_FILE,
        "drive 2; set . 2 start_empty; set f 1",
        "set_target_revision 2; \
         open_root 2 #0; \
         open_file f #0 1 #1; \
         apply_text #1 0cc175b9c0f1b6a831c399e269772661 abc; \
         close_file #1 900150983cd24fb0d6963f7d28e17f72; \
         close_directory #0; \
         close_edit; \
         Ok(Closed { calls: 7 }); ",
    ),
    // a root that starts empty
    (
        ONE_FILE,
        "drive 2; set . 2 start_empty",
        "set_target_revision 2; \
         open_root 2 #0; \
         add_file f #0 #1; \
         apply_text #1 - abc; \
         close_file #1 900150983cd24fb0d6963f7d28e17f72; \
         close_directory #0; \
         close_edit; \
         Ok(Closed { calls: 7 }); ",
    ),
    // a file that starts empty, which says nothing
    (
        ONE_FILE,
        "drive 1; set . 1; set f 1 start_empty",
        "set_target_revision 1; \
         open_root 1 #0; \
         close_directory #0; \
         close_edit; \
         Ok(Closed { calls: 4 }); ",
    ),
    // a directory that starts empty, and so without its property
    (
        "mkdir d; prop d p 1; commit; unprop d p; prop d q 2; commit",
        "drive 2; set . 2 start_empty; set d 2 start_empty",
        "set_target_revision 2; \
         open_root 2 #0; \
         open_directory d #0 2 #1; \
         change_dir_prop #1 q 2; \
         close_directory #1; \
         close_directory #0; \
         close_edit; \
         Ok(Closed { calls: 7 }); ",
    ),
];

#[test]
fn copies_of_one_revision_are_updated(rt: HostRuntime) -> Result<(), Fail> {
    all(&rt, rt.alloc(), &PLAIN)
}

#[test]
fn copies_of_mixed_revisions_are_updated(rt: HostRuntime) -> Result<(), Fail> {
    all(&rt, rt.alloc(), &MIXED_REVISIONS)
}
