// Drives of updates with links.
use crate::histories::{ONE_FILE, REPLACED, TWO_DIRECTORIES};
use crate::steps::{HistoryCase, all};
use std::test::Fail;

// A link to a sibling directory.
pub(crate) const FOLLOWED: HistoryCase<'static> = (
    TWO_DIRECTORIES,
    "drive 2; set . 1; link a b 1",
    "set_target_revision 2; \
     open_root 1 #0; \
     open_directory a #0 1 #1; \
     open_file a/y #1 1 #2; \
     apply_text #2 0cc175b9c0f1b6a831c399e269772661 abc; \
     close_file #2 900150983cd24fb0d6963f7d28e17f72; \
     close_directory #1; \
     open_directory b #0 1 #3; \
     open_file b/y #3 1 #4; \
     apply_text #4 0cc175b9c0f1b6a831c399e269772661 abc; \
     close_file #4 900150983cd24fb0d6963f7d28e17f72; \
     close_directory #3; \
     close_directory #0; \
     close_edit; \
     Ok(Closed { calls: 14 }); ",
);

static LINKS: [HistoryCase<'static>; 7] = [
    FOLLOWED,
    // a link that lapses, since its node is gone
    (
        "mkdir a; put a/x a; mkdir b; put b/y a; commit; remove b; commit",
        "drive 2; set . 1; link a b 1",
        "set_target_revision 2; \
         open_root 1 #0; \
         delete_entry a 1 #0; \
         add_directory a #0 #1; \
         add_file a/x #1 #2; \
         apply_text #2 - a; \
         close_file #2 0cc175b9c0f1b6a831c399e269772661; \
         close_directory #1; \
         delete_entry b 1 #0; \
         close_directory #0; \
         close_edit; \
         Ok(Closed { calls: 11 }); ",
    ),
    // a link below a replaced directory
    (
        REPLACED,
        "drive 2; set . 1; link d/s b 1",
        "set_target_revision 2; \
         open_root 1 #0; \
         delete_entry d 1 #0; \
         add_directory d #0 #1; \
         add_directory d/s #1 #2; \
         close_directory #2; \
         close_directory #1; \
         close_directory #0; \
         close_edit; \
         Ok(Closed { calls: 9 }); ",
    ),
    // that update, stopped after the directory was added
    (
        REPLACED,
        "drive 2; set . 2 start_empty; set b 1; set d 2 start_empty",
        "set_target_revision 2; \
         open_root 2 #0; \
         open_directory d #0 2 #1; \
         add_directory d/s #1 #2; \
         close_directory #2; \
         close_directory #1; \
         close_directory #0; \
         close_edit; \
         Ok(Closed { calls: 8 }); ",
    ),
    // and taken back
    (
        REPLACED,
        "drive 1; set . 2 start_empty; set b 1; set d 2 start_empty",
        "set_target_revision 1; \
         open_root 2 #0; \
         delete_entry d 2 #0; \
         add_directory d #0 #1; \
         add_directory d/s #1 #2; \
         close_directory #2; \
         close_directory #1; \
         close_directory #0; \
         close_edit; \
         Ok(Closed { calls: 9 }); ",
    ),
    // a link to the root
    (
        "mkdir a; put f a; commit; put f abc; commit",
        "drive 2; set . 1; link a . 1",
        "set_target_revision 2; \
         open_root 1 #0; \
         open_directory a #0 1 #1; \
         open_file a/f #1 1 #2; \
         apply_text #2 0cc175b9c0f1b6a831c399e269772661 abc; \
         close_file #2 900150983cd24fb0d6963f7d28e17f72; \
         close_directory #1; \
         open_file f #0 1 #3; \
         apply_text #3 0cc175b9c0f1b6a831c399e269772661 abc; \
         close_file #3 900150983cd24fb0d6963f7d28e17f72; \
         close_directory #0; \
         close_edit; \
         Ok(Closed { calls: 12 }); ",
    ),
    // a link to what the target has
    (
        ONE_FILE,
        "drive 2; set . 1; link g f 2",
        "set_target_revision 2; \
         open_root 1 #0; \
         open_file f #0 1 #1; \
         apply_text #1 0cc175b9c0f1b6a831c399e269772661 abc; \
         close_file #1 900150983cd24fb0d6963f7d28e17f72; \
         close_directory #0; \
         close_edit; \
         Ok(Closed { calls: 7 }); ",
    ),
];

#[test]
fn links_are_followed_while_their_nodes_stand(rt: HostRuntime) -> Result<(), Fail> {
    all(&rt, rt.alloc(), &LINKS)
}
