// Drives and updates: the calls, and the copy before and after them.
use crate::whole_scripts::tables::{NOTHING, Part, TWO_REVISIONS, Table};

// A file changes between two revisions.
const STORED: Part = (
    "\
put f a
commit
checkout 1
put f abc
commit
drive 2
update 2
show
",
    "\
committed 1
ok
committed 2
set_target_revision 2
open_root 1 #0
open_file f #0 1 #1
apply_text #1 0cc175b9c0f1b6a831c399e269772661 abc
close_file #1 900150983cd24fb0d6963f7d28e17f72
close_directory #0
close_edit
closed 7
. dir 2 .
f file 2 f abc
",
);

// By calls: a function that names the texts themselves is proved with them at each step.
pub(crate) fn stored_script() -> &'static str {
    STORED.0
}

pub(crate) fn stored_output() -> &'static str {
    STORED.1
}

pub(crate) static WHOLE_SCRIPTS: Table = Table {
    before: NOTHING,
    after: NOTHING,
    rows: &[
        STORED,
        // a tree comes and goes
        (
            "\
mkdir d
mkdir d/e
put d/e/x a
commit
checkout 0
drive 1
update 1
show
drive 0
update 0
show
",
            "\
committed 1
ok
set_target_revision 1
open_root 0 #0
add_directory d #0 #1
add_directory d/e #1 #2
add_file d/e/x #2 #3
apply_text #3 - a
close_file #3 0cc175b9c0f1b6a831c399e269772661
close_directory #2
close_directory #1
close_directory #0
close_edit
closed 11
. dir 1 .
d dir 1 d
d/e dir 1 d/e
d/e/x file 1 d/e/x a
set_target_revision 0
open_root 1 #0
delete_entry d 1 #0
close_directory #0
close_edit
closed 5
. dir 0 .
",
        ),
        // properties change, go and come
        (
            "\
mkdir d
prop d a 1
prop d b 2
prop d c 3
commit
unprop d a
prop d b 9
prop d d 4
commit
checkout 1
drive 2
",
            "\
committed 1
committed 2
ok
set_target_revision 2
open_root 1 #0
open_directory d #0 1 #1
change_dir_prop #1 a
change_dir_prop #1 b 9
change_dir_prop #1 d 4
close_directory #1
close_directory #0
close_edit
",
        ),
        // those of a file come with it, and are reported before its text
        (
            "\
put f a
prop f p \"\"
prop f q %20
commit
checkout 0
drive 1
",
            "\
committed 1
ok
set_target_revision 1
open_root 0 #0
add_file f #0 #1
change_file_prop #1 p \"\"
change_file_prop #1 q %20
apply_text #1 - a
close_file #1 0cc175b9c0f1b6a831c399e269772661
close_directory #0
close_edit
",
        ),
        // what is forgotten comes back
        (
            "\
mkdir d
put d/x abc
commit
checkout 1
forget d/x
show
report
drive 1
update 1
show
",
            "\
committed 1
ok
ok
. dir 1 .
d dir 1 d
d/x not-present
set . 1
delete d/x
set_target_revision 1
open_root 1 #0
open_directory d #0 1 #1
add_file d/x #1 #2
apply_text #2 - abc
close_file #2 900150983cd24fb0d6963f7d28e17f72
close_directory #1
close_directory #0
close_edit
closed 9
. dir 1 .
d dir 1 d
d/x file 1 d/x abc
",
        ),
        // a file becomes a directory
        (
            "\
put f a
commit
remove f
mkdir f
commit
checkout 1
drive 2
update 2
show
",
            "\
committed 1
committed 2
ok
set_target_revision 2
open_root 1 #0
delete_entry f 1 #0
add_directory f #0 #1
close_directory #1
close_directory #0
close_edit
closed 7
. dir 2 .
f dir 2 f
",
        ),
        // a directory that is put back is the same directory
        (
            "\
mkdir d
put d/x a
commit
remove d
copy 1 d d
put d/x abc
commit
checkout 1
drive 2
update 2
show
",
            "\
committed 1
committed 2
ok
set_target_revision 2
open_root 1 #0
open_directory d #0 1 #1
open_file d/x #1 1 #2
apply_text #2 0cc175b9c0f1b6a831c399e269772661 abc
close_file #2 900150983cd24fb0d6963f7d28e17f72
close_directory #1
close_directory #0
close_edit
closed 9
. dir 2 .
d dir 2 d
d/x file 2 d/x abc
",
        ),
        // an empty text is a text, and a file that was added and not closed isn't present
        (
            "\
put f \"\"
commit
checkout 0
drive 1
update 1 3
show
report
update 1
show
",
            "\
committed 1
ok
set_target_revision 1
open_root 0 #0
add_file f #0 #1
apply_text #1 - \"\"
close_file #1 d41d8cd98f00b204e9800998ecf8427e
close_directory #0
close_edit
aborted 3 3 Cancelled
. dir 1 . incomplete
f not-present
set . 1 start_empty
closed 7
. dir 1 .
f file 1 f \"\"
",
        ),
        // the same with late texts, before which the directory is complete
        (
            "\
put f \"\"
commit
checkout 0
drive 1 late
update 1 4 late
show
report
update 1
",
            "\
committed 1
ok
set_target_revision 1
open_root 0 #0
add_file f #0 #1
close_directory #0
apply_text #1 - \"\"
close_file #1 d41d8cd98f00b204e9800998ecf8427e
close_edit
aborted 4 4 Cancelled
. dir 1 .
f not-present
set . 1
delete f
closed 7
",
        ),
        // a directory that was opened and not closed keeps its properties, and is reported as empty
        (
            "\
mkdir d
prop d p 1
commit
unprop d p
prop d q 2
commit
checkout 1
drive 2
update 2 5
show
report
drive 2
update 2
show
",
            "\
committed 1
committed 2
ok
set_target_revision 2
open_root 1 #0
open_directory d #0 1 #1
change_dir_prop #1 p
change_dir_prop #1 q 2
close_directory #1
close_directory #0
close_edit
aborted 5 5 Cancelled
. dir 2 . incomplete
d dir 2 d incomplete
d prop p 1
set . 2 start_empty
set d 2 start_empty
set_target_revision 2
open_root 2 #0
open_directory d #0 2 #1
change_dir_prop #1 q 2
close_directory #1
close_directory #0
close_edit
closed 7
. dir 2 .
d dir 2 d
d prop q 2
",
        ),
    ],
};

// A file whose text is first `a` and then `abc`, checked out as it was first.
pub(crate) static OF_TWO_REVISIONS: Table = Table {
    before: TWO_REVISIONS,
    after: NOTHING,
    rows: &[
        // a copy that is at the target already stays
        (
            "update 2\ndrive 2\nupdate 2\n",
            "\
closed 7
set_target_revision 2
open_root 2 #0
close_directory #0
close_edit
closed 4
",
        ),
        // a drive leaves the copy as it was
        (
            "drive 1\nshow\n",
            "\
set_target_revision 1
open_root 1 #0
close_directory #0
close_edit
. dir 1 .
f file 1 f a
",
        ),
        // a stopped update is reported, and continued
        (
            "update 2 3\nshow\nreport\ndrive 2\nupdate 2\nshow\n",
            "\
aborted 3 3 Cancelled
. dir 2 . incomplete
f file 1 f a
set . 2 start_empty
set f 1
set_target_revision 2
open_root 2 #0
open_file f #0 1 #1
apply_text #1 0cc175b9c0f1b6a831c399e269772661 abc
close_file #1 900150983cd24fb0d6963f7d28e17f72
close_directory #0
close_edit
closed 7
. dir 2 .
f file 2 f abc
",
        ),
        // it may be stopped before its first call, and needs no stop at its last
        (
            "update 2 0\nshow\nupdate 2 7\nshow\n",
            "\
aborted 0 0 Cancelled
. dir 1 .
f file 1 f a
closed 7
. dir 2 .
f file 2 f abc
",
        ),
        (
            "update 2 18446744073709551615 late\nshow\n",
            "closed 7\n. dir 2 .\nf file 2 f abc\n",
        ),
        // another path of the copy shows the same file at another revision
        (
            "switch g f 2\nshow\nreport\ndrive 2\nupdate 2\nshow\n",
            "\
ok
. dir 1 .
f file 1 f a
g file 2 f abc
set . 1
link g f 2
set_target_revision 2
open_root 1 #0
open_file f #0 1 #1
apply_text #1 0cc175b9c0f1b6a831c399e269772661 abc
close_file #1 900150983cd24fb0d6963f7d28e17f72
close_directory #0
close_edit
closed 7
. dir 2 .
f file 2 f abc
g file 2 f abc
",
        ),
    ],
};
