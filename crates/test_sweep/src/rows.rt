//! Rows: lines of a script, each with what it prints.

/// A use of the library.
#[derive(Clone, Copy)]
pub(crate) struct Row {
    pub(crate) name: &'static str,
    pub(crate) lines: &'static [(&'static str, &'static str)],
}

static CHANGED_FILE: Row = Row {
    name: "changed-file",
    lines: &[
        ("put f a", ""),
        ("commit", "committed 1\n"),
        ("checkout 1", "ok\n"),
        ("put f abc", ""),
        ("commit", "committed 2\n"),
        (
            "drive 2",
            "set_target_revision 2\nopen_root 1 #0\nopen_file f #0 1 #1\napply_text #1 0cc175b9c0f1b6a831c399e269772661 abc\nclose_file #1 900150983cd24fb0d6963f7d28e17f72\nclose_directory #0\nclose_edit\n",
        ),
        ("update 2", "closed 7\n"),
        ("show", ". dir 2 .\nf file 2 f abc\n"),
        ("update 2", "closed 4\n"),
    ],
};

static TREES: Row = Row {
    name: "trees",
    lines: &[
        ("mkdir d", ""),
        ("mkdir d/e", ""),
        ("put d/e/x a", ""),
        ("commit", "committed 1\n"),
        ("checkout 0", "ok\n"),
        ("update 1", "closed 11\n"),
        (
            "show",
            ". dir 1 .\nd dir 1 d\nd/e dir 1 d/e\nd/e/x file 1 d/e/x a\n",
        ),
        ("remove d/e", ""),
        ("commit", "committed 2\n"),
        ("update 0", "closed 5\n"),
        ("show", ". dir 0 .\n"),
    ],
};

static MIXED: Row = Row {
    name: "mixed",
    lines: &[
        ("mkdir d", ""),
        ("put d/x a", ""),
        ("commit", "committed 1\n"),
        ("put d/x abc", ""),
        ("commit", "committed 2\n"),
        ("put y a", ""),
        ("commit", "committed 3\n"),
        ("put y abc", ""),
        ("commit", "committed 4\n"),
        ("checkout 3", "ok\n"),
        ("place d/x 1", "ok\n"),
        ("report", "set . 3\nset d/x 1\n"),
        (
            "drive 4",
            "set_target_revision 4\nopen_root 3 #0\nopen_directory d #0 3 #1\nopen_file d/x #1 1 #2\napply_text #2 0cc175b9c0f1b6a831c399e269772661 abc\nclose_file #2 900150983cd24fb0d6963f7d28e17f72\nclose_directory #1\nopen_file y #0 3 #3\napply_text #3 0cc175b9c0f1b6a831c399e269772661 abc\nclose_file #3 900150983cd24fb0d6963f7d28e17f72\nclose_directory #0\nclose_edit\n",
        ),
        ("update 4", "closed 12\n"),
        (
            "show",
            ". dir 4 .\nd dir 4 d\nd/x file 4 d/x abc\ny file 4 y abc\n",
        ),
    ],
};

static FORGOTTEN: Row = Row {
    name: "forgotten",
    lines: &[
        ("mkdir d", ""),
        ("put d/x abc", ""),
        ("commit", "committed 1\n"),
        ("checkout 1", "ok\n"),
        ("forget d/x", "ok\n"),
        ("report", "set . 1\ndelete d/x\n"),
        (
            "drive 1",
            "set_target_revision 1\nopen_root 1 #0\nopen_directory d #0 1 #1\nadd_file d/x #1 #2\napply_text #2 - abc\nclose_file #2 900150983cd24fb0d6963f7d28e17f72\nclose_directory #1\nclose_directory #0\nclose_edit\n",
        ),
        ("update 1", "closed 9\n"),
        ("show", ". dir 1 .\nd dir 1 d\nd/x file 1 d/x abc\n"),
    ],
};

static SWITCHED: Row = Row {
    name: "switched",
    lines: &[
        ("mkdir a", ""),
        ("put a/x a", ""),
        ("mkdir b", ""),
        ("put b/y a", ""),
        ("commit", "committed 1\n"),
        ("put a/x abc", ""),
        ("put b/y abc", ""),
        ("commit", "committed 2\n"),
        ("checkout 1", "ok\n"),
        ("switch a b 1", "ok\n"),
        ("report", "set . 1\nlink a b 1\n"),
        (
            "drive 2",
            "set_target_revision 2\nopen_root 1 #0\nopen_directory a #0 1 #1\nopen_file a/y #1 1 #2\napply_text #2 0cc175b9c0f1b6a831c399e269772661 abc\nclose_file #2 900150983cd24fb0d6963f7d28e17f72\nclose_directory #1\nopen_directory b #0 1 #3\nopen_file b/y #3 1 #4\napply_text #4 0cc175b9c0f1b6a831c399e269772661 abc\nclose_file #4 900150983cd24fb0d6963f7d28e17f72\nclose_directory #3\nclose_directory #0\nclose_edit\n",
        ),
        ("update 2", "closed 14\n"),
        (
            "show",
            ". dir 2 .\na dir 2 b\na/y file 2 b/y abc\nb dir 2 b\nb/y file 2 b/y abc\n",
        ),
    ],
};

static SWITCH_GONE: Row = Row {
    name: "switch-gone",
    lines: &[
        ("mkdir a", ""),
        ("put a/x a", ""),
        ("mkdir b", ""),
        ("put b/y a", ""),
        ("commit", "committed 1\n"),
        ("remove b", ""),
        ("commit", "committed 2\n"),
        ("checkout 1", "ok\n"),
        ("switch a b 1", "ok\n"),
        (
            "drive 2",
            "set_target_revision 2\nopen_root 1 #0\ndelete_entry a 1 #0\nadd_directory a #0 #1\nadd_file a/x #1 #2\napply_text #2 - a\nclose_file #2 0cc175b9c0f1b6a831c399e269772661\nclose_directory #1\ndelete_entry b 1 #0\nclose_directory #0\nclose_edit\n",
        ),
        ("update 2", "closed 11\n"),
        ("show", ". dir 2 .\na dir 2 a\na/x file 2 a/x a\n"),
    ],
};

static STOPPED: Row = Row {
    name: "stopped",
    lines: &[
        ("put f a", ""),
        ("commit", "committed 1\n"),
        ("put f abc", ""),
        ("commit", "committed 2\n"),
        ("checkout 1", "ok\n"),
        ("update 2 0", "aborted 0 0 Cancelled\n"),
        ("update 2 3", "aborted 3 3 Cancelled\n"),
        ("show", ". dir 2 . incomplete\nf file 1 f a\n"),
        ("report", "set . 2 start_empty\nset f 1\n"),
        ("update 2", "closed 7\n"),
        ("show", ". dir 2 .\nf file 2 f abc\n"),
    ],
};

static PROPERTIES: Row = Row {
    name: "properties",
    lines: &[
        ("mkdir d", ""),
        ("prop d p 1", ""),
        ("put f a", ""),
        ("prop f q \"\"", ""),
        ("commit", "committed 1\n"),
        ("unprop d p", ""),
        ("prop d q 2", ""),
        ("prop f q 3", ""),
        ("commit", "committed 2\n"),
        ("checkout 1", "ok\n"),
        ("update 2 5", "aborted 5 5 Cancelled\n"),
        (
            "show",
            ". dir 2 . incomplete\nd dir 2 d incomplete\nd prop p 1\nf file 1 f a\nf prop q \"\"\n",
        ),
        (
            "report",
            "set . 2 start_empty\nset d 2 start_empty\nset f 1\n",
        ),
        ("update 2", "closed 10\n"),
        (
            "show",
            ". dir 2 .\nd dir 2 d\nd prop q 2\nf file 2 f a\nf prop q 3\n",
        ),
    ],
};

static COPIED_OVER: Row = Row {
    name: "copied-over",
    lines: &[
        ("mkdir d", ""),
        ("put d/x a", ""),
        ("commit", "committed 1\n"),
        ("remove d", ""),
        ("copy 1 d d", ""),
        ("put d/x abc", ""),
        ("commit", "committed 2\n"),
        ("checkout 1", "ok\n"),
        ("update 2", "closed 9\n"),
        ("show", ". dir 2 .\nd dir 2 d\nd/x file 2 d/x abc\n"),
    ],
};

static WHOLE_SWITCH: Row = Row {
    name: "whole-switch",
    lines: &[
        ("mkdir t", ""),
        ("mkdir t/d", ""),
        ("put t/f a", ""),
        ("put t/d/x a", ""),
        ("commit", "committed 1\n"),
        ("copy 1 t b", ""),
        ("commit", "committed 2\n"),
        ("put b/f abc", ""),
        ("commit", "committed 3\n"),
        ("checkout 1 t", "ok\n"),
        ("switch-to b 3 3", "aborted 3 3 Cancelled\n"),
        (
            "show",
            ". dir 3 b incomplete\nd dir 1 t/d\nd/x file 1 t/d/x a\nf file 1 t/f a\n",
        ),
        (
            "report",
            "root b\nset . 3 start_empty\nlink d t/d 1\nlink f t/f 1\n",
        ),
        ("checkout 1 t", "ok\n"),
        ("switch-to b 3", "closed 7\n"),
        (
            "show",
            ". dir 3 b\nd dir 3 b/d\nd/x file 3 b/d/x a\nf file 3 b/f abc\n",
        ),
    ],
};

static LATE: Row = Row {
    name: "late",
    lines: &[
        ("mkdir d", ""),
        ("put d/x a", ""),
        ("commit", "committed 1\n"),
        ("put d/x abc", ""),
        ("commit", "committed 2\n"),
        ("put y a", ""),
        ("commit", "committed 3\n"),
        ("put y abc", ""),
        ("commit", "committed 4\n"),
        ("checkout 3", "ok\n"),
        ("place d/x 1", "ok\n"),
        (
            "drive 4 late",
            "set_target_revision 4\nopen_root 3 #0\nopen_directory d #0 3 #1\nopen_file d/x #1 1 #2\nclose_directory #1\nopen_file y #0 3 #3\nclose_directory #0\napply_text #2 0cc175b9c0f1b6a831c399e269772661 abc\nclose_file #2 900150983cd24fb0d6963f7d28e17f72\napply_text #3 0cc175b9c0f1b6a831c399e269772661 abc\nclose_file #3 900150983cd24fb0d6963f7d28e17f72\nclose_edit\n",
        ),
        ("update 4 7 late", "aborted 7 7 Cancelled\n"),
        (
            "show",
            ". dir 4 .\nd dir 4 d\nd/x file 1 d/x a\ny file 3 y a\n",
        ),
        ("report", "set . 4\nset d/x 1\nset y 3\n"),
        ("update 4 late", "closed 12\n"),
        (
            "show",
            ". dir 4 .\nd dir 4 d\nd/x file 4 d/x abc\ny file 4 y abc\n",
        ),
    ],
};

static LATE_ADD: Row = Row {
    name: "late-add",
    lines: &[
        ("put f \"\"", ""),
        ("commit", "committed 1\n"),
        ("checkout 0", "ok\n"),
        ("update 1 4 late", "aborted 4 4 Cancelled\n"),
        ("show", ". dir 1 .\nf not-present\n"),
        ("report", "set . 1\ndelete f\n"),
        ("update 1 late", "closed 7\n"),
        ("show", ". dir 1 .\nf file 1 f \"\"\n"),
    ],
};

// A switch of the whole copy goes over a directory that was switched for itself.
static SWITCH_INSIDE: Row = Row {
    name: "switch-inside",
    lines: &[
        ("mkdir t", ""),
        ("mkdir t/d", ""),
        ("mkdir e", ""),
        ("put t/f a", ""),
        ("put t/d/x a", ""),
        ("commit", "committed 1\n"),
        ("copy 1 t b", ""),
        ("commit", "committed 2\n"),
        ("put b/f abc", ""),
        ("commit", "committed 3\n"),
        ("checkout 1 t", "ok\n"),
        ("switch d e 1", "ok\n"),
        ("report", "root t\nset . 1\nlink d e 1\n"),
        ("switch-to b 3", "closed 13\n"),
        (
            "show",
            ". dir 3 b\nd dir 3 b/d\nd/x file 3 b/d/x a\nf file 3 b/f abc\n",
        ),
    ],
};

static SWITCH_REFUSED: Row = Row {
    name: "switch-refused",
    lines: &[
        ("mkdir t", ""),
        ("put t/f a", ""),
        ("commit", "committed 1\n"),
        ("copy 1 t b", ""),
        ("commit", "committed 2\n"),
        ("checkout 1 t", "ok\n"),
        ("switch-to b 1", "refused NoRoot\n"),
        ("switch-to . 2", "refused OtherRoot\n"),
        ("switch-to t/f 2", "refused OtherRoot\n"),
        ("switch-to b 9", "refused NoSuchRevision\n"),
        ("remove t", ""),
        ("commit", "committed 3\n"),
        ("drive 3", "refused NoRoot\n"),
        ("update 3", "refused NoRoot\n"),
        ("show", ". dir 1 t\nf file 1 t/f a\n"),
        ("checkout 1 t/f", "refused BadRoot\n"),
        ("switch-to b 3", "closed 4\n"),
        ("show", ". dir 3 b\nf file 3 b/f a\n"),
    ],
};

// Each kind of command is refused, and what was there stays.
static REFUSED: Row = Row {
    name: "refused",
    lines: &[
        ("mkdir d", ""),
        ("put d/f a", ""),
        ("commit", "committed 1\n"),
        ("mkdir d", ""),
        ("commit", "refused Exists\n"),
        ("put x/y a", ""),
        ("commit", "refused Missing\n"),
        ("put d/f/x a", ""),
        ("commit", "refused NotDir\n"),
        ("put d a", ""),
        ("commit", "refused NotFile\n"),
        ("prop x p 1", ""),
        ("commit", "refused Missing\n"),
        ("remove .", ""),
        ("commit", "refused IsRoot\n"),
        ("copy 2 d e", ""),
        ("commit", "refused NoSuchRevision\n"),
        ("commit", "committed 2\n"),
        ("checkout 1", "ok\n"),
        ("checkout 3", "refused NoSuchRevision\n"),
        ("checkout 1 x", "refused Missing\n"),
        ("checkout 1 d/f", "refused BadRoot\n"),
        ("place x 1", "refused Missing\n"),
        ("place d 3", "refused NoSuchRevision\n"),
        ("place . 1", "refused IsRoot\n"),
        ("place x/y 1", "refused NoParent\n"),
        ("switch d x 1", "refused Missing\n"),
        ("switch . d 1", "refused IsRoot\n"),
        ("switch x/y d 1", "refused NoParent\n"),
        ("forget .", "refused IsRoot\n"),
        ("forget x", "refused Missing\n"),
        ("drive 3", "refused NoSuchTarget\n"),
        ("update 3", "refused NoSuchRevision\n"),
        ("switch-to d 3", "refused NoSuchRevision\n"),
        ("show", ". dir 1 .\nd dir 1 d\nd/f file 1 d/f a\n"),
        ("update 2", "closed 4\n"),
        ("show", ". dir 2 .\nd dir 2 d\nd/f file 2 d/f a\n"),
    ],
};

// A path of more bytes than are kept in place, and texts and values too.
static LONG: Row = Row {
    name: "long",
    lines: &[
        ("mkdir a-directory-whose-name-is-long-enough", ""),
        (
            "put a-directory-whose-name-is-long-enough/a-file-whose-name-is-long-too a-text-of-more-than-thirty-bytes-in-all",
            "",
        ),
        (
            "prop a-directory-whose-name-is-long-enough a-property-with-a-long-name a-value-of-more-than-thirty-bytes-in-all",
            "",
        ),
        ("commit", "committed 1\n"),
        ("checkout 0", "ok\n"),
        ("update 1", "closed 10\n"),
        (
            "show",
            ". dir 1 .\na-directory-whose-name-is-long-enough dir 1 a-directory-whose-name-is-long-enough\na-directory-whose-name-is-long-enough prop a-property-with-a-long-name a-value-of-more-than-thirty-bytes-in-all\na-directory-whose-name-is-long-enough/a-file-whose-name-is-long-too file 1 a-directory-whose-name-is-long-enough/a-file-whose-name-is-long-too a-text-of-more-than-thirty-bytes-in-all\n",
        ),
    ],
};

/// All rows. Each is a table by itself, and this is the only function that names them: it is proved with all that is in a table that it
/// names, and one table of all of them costs it many times what these do.
pub(crate) fn rows() -> [&'static Row; 16] {
    [
        &CHANGED_FILE,
        &TREES,
        &MIXED,
        &FORGOTTEN,
        &SWITCHED,
        &SWITCH_GONE,
        &STOPPED,
        &PROPERTIES,
        &COPIED_OVER,
        &WHOLE_SWITCH,
        &SWITCH_INSIDE,
        &SWITCH_REFUSED,
        &REFUSED,
        &LATE,
        &LATE_ADD,
        &LONG,
    ]
}
