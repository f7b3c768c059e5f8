// Drives of switches of whole copies, and drives to what can't be reached.
use crate::histories::{BRANCHED, ONE_FILE};
use crate::steps::{HistoryCase, all};
use std::test::Fail;

// A link, which a switch doesn't follow.
pub(crate) const LINKED: HistoryCase<'static> = (
    BRANCHED,
    "drive_switch 3 b; root t; set . 1; link d e 1",
    "set_target_revision 3; \
     open_root 1 #0; \
     delete_entry d 1 #0; \
     add_directory d #0 #1; \
     add_file d/x #1 #2; \
     apply_text #2 - a; \
     close_file #2 0cc175b9c0f1b6a831c399e269772661; \
     close_directory #1; \
     open_file f #0 1 #3; \
     apply_text #3 0cc175b9c0f1b6a831c399e269772661 abc; \
     close_file #3 900150983cd24fb0d6963f7d28e17f72; \
     close_directory #0; \
     close_edit; \
     Ok(Closed { calls: 13 }); ",
);

static SWITCHES: [HistoryCase<'static>; 4] = [
    LINKED,
    // to a branch
    (
        BRANCHED,
        "drive_switch 3 b; root t; set . 1",
        "set_target_revision 3; \
         open_root 1 #0; \
         open_file f #0 1 #1; \
         apply_text #1 0cc175b9c0f1b6a831c399e269772661 abc; \
         close_file #1 900150983cd24fb0d6963f7d28e17f72; \
         close_directory #0; \
         close_edit; \
         Ok(Closed { calls: 7 }); ",
    ),
    // that switch, stopped after the root was opened
    (
        BRANCHED,
        "drive_switch 3 b; root b; set . 3 start_empty; link d t/d 1; link f t/f 1",
        "set_target_revision 3; \
         open_root 3 #0; \
         open_file f #0 1 #1; \
         apply_text #1 0cc175b9c0f1b6a831c399e269772661 abc; \
         close_file #1 900150983cd24fb0d6963f7d28e17f72; \
         close_directory #0; \
         close_edit; \
         Ok(Closed { calls: 7 }); ",
    ),
    // updated instead, so that the links stay
    (
        BRANCHED,
        "drive 3; root b; set . 3 start_empty; link d t/d 1; link f t/f 1",
        "set_target_revision 3; \
         open_root 3 #0; \
         close_directory #0; \
         close_edit; \
         Ok(Closed { calls: 4 }); ",
    ),
];

#[test]
fn copies_are_switched(rt: HostRuntime) -> Result<(), Fail> {
    all(&rt, rt.alloc(), &SWITCHES)
}

static REFUSALS: [HistoryCase<'static>; 7] = [
    (ONE_FILE, "drive 3; set . 1", "Err(NoSuchTarget); "),
    (ONE_FILE, "drive 3 late; set . 1", "Err(NoSuchTarget); "),
    (
        BRANCHED,
        "drive_switch 9 b; root t; set . 1",
        "Err(NoSuchTarget); ",
    ),
    (
        BRANCHED,
        "drive_switch 1 b; root t; set . 1",
        "Err(NoRoot); ",
    ),
    (
        BRANCHED,
        "drive_switch 3 .; root t; set . 1",
        "Err(OtherRoot); ",
    ),
    (
        BRANCHED,
        "drive_switch 3 t/f; root t; set . 1",
        "Err(OtherRoot); ",
    ),
    (BRANCHED, "drive 1; root b; set . 2", "Err(NoRoot); "),
];

#[test]
fn without_a_target_there_is_no_call(rt: HostRuntime) -> Result<(), Fail> {
    all(&rt, rt.alloc(), &REFUSALS)
}
