//! The calls of an edit, given to the order check and to an applier. Each call has a number for its result: 0 where it is accepted.
use crate::printed::has;
use crate::trouble::{Trouble, holds};
use std::alloc::Global;
use svn_editor::{Call, Digest, EditFault, Editor, OrderFault, Token};
use svn_order::OrderCheck;
use svn_repo::{Change, Repo};
use svn_types::{PropName, RelPath, Rev, Text};
use svn_wc::{Applier, WorkingCopy};

// The checksums of `a` and of `abc` (RFC 1321, appendix A.5).
const OF_A: Digest = Digest([
    0x0c, 0xc1, 0x75, 0xb9, 0xc0, 0xf1, 0xb6, 0xa8, 0x31, 0xc3, 0x99, 0xe2, 0x69, 0x77, 0x26, 0x61,
]);

const OF_ABC: Digest = Digest([
    0x90, 0x01, 0x50, 0x98, 0x3c, 0xd2, 0x4f, 0xb0, 0xd6, 0x96, 0x3f, 0x7d, 0x28, 0xe1, 0x7f, 0x72,
]);

// A checksum that a call names.
#[derive(Clone, Copy)]
enum Sum {
    None,
    OfA,
    OfAbc,
}

fn digest_of(sum: Sum) -> Option<Digest> {
    match sum {
        Sum::None => None,
        Sum::OfA => Some(OF_A),
        Sum::OfAbc => Some(OF_ABC),
    }
}

// A call for what is at a path: the tokens of its parent and of itself, and for what is opened its revision between them. What is
// deleted has a revision, and a parent.
#[derive(Clone, Copy)]
enum Entry {
    AddDir(u64, u64),
    AddFile(u64, u64),
    OpenDir(u64, u64, u64),
    OpenFile(u64, u64, u64),
    Delete(u64, u64),
}

// A call that ends something.
#[derive(Clone, Copy)]
enum End {
    File(u64, Sum),
    Dir(u64),
    Edit,
    Abort,
}

// A call.
#[derive(Clone, Copy)]
enum Step {
    Target(u64),
    Root(u64),
    At(&'static str, Entry),
    Prop(u64, &'static str),
    // a token, the checksum of what was there, and the text
    Put(u64, Sum, &'static str),
    End(End),
}

pub(crate) fn text_of(alloc: Global, text: &str) -> Result<Text, Trouble> {
    Ok(Text::new(text.as_bytes().to_vec(alloc)?))
}

fn entry_call(alloc: Global, path: &str, entry: Entry) -> Result<Call, Trouble> {
    let path = RelPath::parse(alloc, path)?;
    Ok(match entry {
        Entry::AddDir(parent, token) => Call::AddDirectory {
            path,
            parent: Token(parent),
            token: Token(token),
        },
        Entry::AddFile(parent, token) => Call::AddFile {
            path,
            parent: Token(parent),
            token: Token(token),
        },
        Entry::OpenDir(parent, base, token) => Call::OpenDirectory {
            path,
            parent: Token(parent),
            base: Rev(base),
            token: Token(token),
        },
        Entry::OpenFile(parent, base, token) => Call::OpenFile {
            path,
            parent: Token(parent),
            base: Rev(base),
            token: Token(token),
        },
        Entry::Delete(rev, parent) => Call::DeleteEntry {
            path,
            rev: Rev(rev),
            parent: Token(parent),
        },
    })
}

fn prop_call(alloc: Global, token: u64, value: &str) -> Result<Call, Trouble> {
    let value = text_of(alloc, value)?;
    Ok(Call::ChangeFileProp {
        token: Token(token),
        name: PropName::parse(alloc, "p")?,
        value: Some(value),
    })
}

fn text_call(alloc: Global, token: u64, base: Sum, text: &str) -> Result<Call, Trouble> {
    Ok(Call::ApplyText {
        token: Token(token),
        base_md5: digest_of(base),
        text: text_of(alloc, text)?,
    })
}

fn end_call(end: End) -> Call {
    match end {
        End::File(token, sum) => Call::CloseFile {
            token: Token(token),
            text_md5: digest_of(sum),
        },
        End::Dir(token) => Call::CloseDirectory {
            token: Token(token),
        },
        End::Edit => Call::CloseEdit,
        End::Abort => Call::AbortEdit,
    }
}

fn call_of(alloc: Global, step: Step) -> Result<Call, Trouble> {
    match step {
        Step::Target(rev) => Ok(Call::SetTargetRevision { rev: Rev(rev) }),
        Step::Root(base) => Ok(Call::OpenRoot {
            base: Rev(base),
            token: Token(0),
        }),
        Step::At(path, entry) => entry_call(alloc, path, entry),
        Step::Prop(token, value) => prop_call(alloc, token, value),
        Step::Put(token, base, text) => text_call(alloc, token, base, text),
        Step::End(end) => Ok(end_call(end)),
    }
}

// After the target revision and the root.
static ORDERS: [&[(Step, u32)]; 8] = [
    &[
        (Step::At("a", Entry::AddDir(0, 1)), 0),
        (Step::End(End::Dir(1)), 0),
        (Step::At("a/f", Entry::AddFile(1, 2)), 3),
        (Step::End(End::Dir(0)), 13),
        (Step::End(End::Abort), 0),
        (Step::End(End::Abort), 12),
    ],
    &[
        (Step::At("a", Entry::AddDir(0, 1)), 0),
        (Step::At("b", Entry::AddDir(0, 2)), 6),
    ],
    &[(Step::End(End::Edit), 11)],
    &[
        (Step::At("f", Entry::AddFile(0, 1)), 0),
        (Step::Put(1, Sum::None, "a"), 0),
        (Step::End(End::Dir(0)), 9),
    ],
    &[
        (Step::At("f", Entry::AddFile(0, 1)), 0),
        (Step::At("g", Entry::AddFile(0, 2)), 0),
        (Step::Prop(1, "1"), 8),
    ],
    &[
        (Step::At("f", Entry::AddFile(0, 1)), 0),
        (Step::At("g", Entry::AddFile(0, 2)), 0),
        (Step::End(End::File(1, Sum::None)), 17),
    ],
    &[
        (Step::At("f", Entry::AddFile(0, 1)), 0),
        (Step::End(End::Dir(0)), 0),
        (Step::End(End::Edit), 11),
    ],
    &[
        (Step::At("f", Entry::AddFile(0, 1)), 0),
        (Step::At("g", Entry::AddFile(0, 2)), 0),
        (Step::End(End::Dir(0)), 0),
        (Step::Put(2, Sum::None, "a"), 0),
        (Step::Put(1, Sum::None, "a"), 0),
        (Step::End(End::File(2, Sum::None)), 0),
        (Step::End(End::File(1, Sum::None)), 0),
        (Step::End(End::Edit), 0),
    ],
];

fn number_of(answer: Result<(), OrderFault>) -> Result<u32, Trouble> {
    match answer {
        Ok(()) => Ok(0),
        Err(OrderFault::Memory) => Err(Trouble::Memory),
        Err(fault) => Ok(fault.number()),
    }
}

fn checked(alloc: Global, check: &mut OrderCheck, step: Step) -> Result<u32, Trouble> {
    let call = call_of(alloc, step)?;
    number_of(check.step(&call))
}

fn check_step(
    alloc: Global,
    check: &mut OrderCheck,
    step: Step,
    wanted: u32,
) -> Result<(), Trouble> {
    let answer = checked(alloc, check, step)?;
    holds(answer == wanted, "the order check answers otherwise")
}

fn check_all(alloc: Global, check: &mut OrderCheck, calls: &[(Step, u32)]) -> Result<(), Trouble> {
    for (step, wanted) in calls {
        check_step(alloc, check, *step, *wanted)?;
    }
    Ok(())
}

fn check_order(alloc: Global, calls: &[(Step, u32)]) -> Result<(), Trouble> {
    let mut check = OrderCheck::new(alloc);
    let begun = [(Step::Target(1), 0), (Step::Root(0), 0)];
    check_all(alloc, &mut check, &begun)?;
    check_all(alloc, &mut check, calls)
}

// (A function is proved with all of a table that it names, so this one does no more.)
fn order_rows() -> &'static [&'static [(Step, u32)]] {
    &ORDERS
}

/// Calls in and out of order. The edit is begun anew if an allocation fails.
pub(crate) fn orders(alloc: Global) -> Result<(), Trouble> {
    for calls in order_rows() {
        check_order(alloc, calls)?;
    }
    Ok(())
}

// On a copy of a repository's first revision, which has the file `f` with the text `a`; and what the copy has at the end.
struct Edit {
    calls: &'static [(Step, u32)],
    shown: &'static str,
}

const UNTOUCHED: &str = ". dir 1 .\nf file 1 f a\n";

const OPENED: &str = ". dir 2 . incomplete\nf file 1 f a\n";

const TARGET: Step = Step::Target(2);

const ROOT: Step = Step::Root(1);

const FILE: Step = Step::At("f", Entry::OpenFile(0, 1, 1));

const TEXT: Step = Step::Put(1, Sum::OfA, "abc");

const FILE_END: Step = Step::End(End::File(1, Sum::OfAbc));

const ROOT_END: Step = Step::End(End::Dir(0));

static EDITS: [Edit; 13] = [
    Edit {
        calls: &[
            (TARGET, 0),
            (ROOT, 0),
            (FILE, 0),
            (TEXT, 0),
            (FILE_END, 0),
            (ROOT_END, 0),
            (Step::End(End::Edit), 0),
        ],
        shown: ". dir 2 .\nf file 2 f abc\n",
    },
    // each two of them in the other order
    Edit {
        calls: &[(ROOT, 1), (TARGET, 13), (FILE, 13)],
        shown: UNTOUCHED,
    },
    Edit {
        calls: &[(TARGET, 0), (FILE, 2), (ROOT, 13), (TEXT, 13)],
        shown: UNTOUCHED,
    },
    Edit {
        calls: &[(TARGET, 0), (ROOT, 0), (TEXT, 2), (FILE, 13)],
        shown: OPENED,
    },
    Edit {
        calls: &[
            (TARGET, 0),
            (ROOT, 0),
            (FILE, 0),
            (FILE_END, 45),
            (TEXT, 13),
        ],
        shown: OPENED,
    },
    Edit {
        calls: &[
            (TARGET, 0),
            (ROOT, 0),
            (FILE, 0),
            (TEXT, 0),
            (ROOT_END, 9),
            (FILE_END, 13),
        ],
        shown: OPENED,
    },
    Edit {
        calls: &[
            (TARGET, 0),
            (ROOT, 0),
            (FILE, 0),
            (TEXT, 0),
            (FILE_END, 0),
            (Step::End(End::Edit), 11),
            (ROOT_END, 13),
        ],
        shown: ". dir 2 . incomplete\nf file 2 f abc\n",
    },
    // what isn't there, is of another kind or at another revision
    Edit {
        calls: &[
            (TARGET, 0),
            (ROOT, 0),
            (Step::At("g", Entry::Delete(1, 0)), 41),
            (Step::End(End::Abort), 0),
        ],
        shown: OPENED,
    },
    Edit {
        calls: &[
            (TARGET, 0),
            (ROOT, 0),
            (Step::At("f", Entry::OpenDir(0, 1, 1)), 42),
        ],
        shown: OPENED,
    },
    Edit {
        calls: &[
            (TARGET, 0),
            (ROOT, 0),
            (Step::At("f", Entry::OpenFile(0, 2, 1)), 43),
        ],
        shown: OPENED,
    },
    Edit {
        calls: &[(TARGET, 0), (Step::Root(2), 43)],
        shown: UNTOUCHED,
    },
    Edit {
        calls: &[
            (TARGET, 0),
            (ROOT, 0),
            (Step::At("f", Entry::AddFile(0, 1)), 47),
        ],
        shown: OPENED,
    },
    // a property is given twice, and the later one stays
    Edit {
        calls: &[
            (TARGET, 0),
            (ROOT, 0),
            (Step::At("g", Entry::AddFile(0, 1)), 0),
            (Step::Prop(1, "1"), 0),
            (Step::Prop(1, "2"), 0),
            (Step::End(End::File(1, Sum::None)), 0),
        ],
        shown: ". dir 2 . incomplete\nf file 1 f a\ng file 2 g \"\"\ng prop p 2\n",
    },
];

// A refused call ends the edit for all but `AbortEdit`.
fn refused(applier: &mut Applier<'_>) -> Trouble {
    if applier.call(Call::CloseEdit) != Err(EditFault::Order(OrderFault::Dead)) {
        return Trouble::Other("an edit goes on behind a refusal");
    }
    if applier.call(Call::AbortEdit).is_err() {
        return Trouble::Other("an edit can't be given up");
    }
    Trouble::Memory
}

fn applied(alloc: Global, applier: &mut Applier<'_>, step: Step) -> Result<u32, Trouble> {
    match applier.call(call_of(alloc, step)?) {
        Ok(()) => Ok(0),
        Err(EditFault::Memory) => Err(refused(applier)),
        Err(fault) => Ok(fault.number()),
    }
}

fn apply_step(
    alloc: Global,
    applier: &mut Applier<'_>,
    step: Step,
    wanted: u32,
) -> Result<(), Trouble> {
    let answer = applied(alloc, applier, step)?;
    holds(answer == wanted, "an applier answers otherwise")
}

fn apply_all(
    alloc: Global,
    applier: &mut Applier<'_>,
    calls: &[(Step, u32)],
) -> Result<(), Trouble> {
    for (step, wanted) in calls {
        apply_step(alloc, applier, *step, *wanted)?;
    }
    Ok(())
}

fn apply(alloc: Global, copy: &mut WorkingCopy, calls: &[(Step, u32)]) -> Result<(), Trouble> {
    let mut applier = Applier::new(alloc, copy)?;
    apply_all(alloc, &mut applier, calls)
}

fn put(alloc: Global, text: &str) -> Result<Change, Trouble> {
    Ok(Change::PutFile {
        path: RelPath::parse(alloc, "f")?,
        text: text_of(alloc, text)?,
    })
}

fn commit_text(alloc: Global, repo: &mut Repo, text: &str) -> Result<(), Trouble> {
    let change = put(alloc, text)?;
    repo.commit(&[change])?;
    Ok(())
}

/// A repository whose file `f` has the text `a`, and then `abc`.
pub(crate) fn changed_file(alloc: Global) -> Result<Repo, Trouble> {
    let mut repo = Repo::new(alloc)?;
    commit_text(alloc, &mut repo, "a")?;
    commit_text(alloc, &mut repo, "abc")?;
    Ok(repo)
}

// A call that is refused for memory leaves a true copy.
fn apply_or_leave(
    alloc: Global,
    repo: &Repo,
    copy: &mut WorkingCopy,
    calls: &[(Step, u32)],
) -> Result<(), Trouble> {
    let ended = apply(alloc, copy, calls);
    if matches!(ended, Err(Trouble::Memory)) {
        holds(
            copy.check_true(repo).is_ok(),
            "a refused call leaves an untrue copy",
        )?;
    }
    ended
}

fn apply_edit(alloc: Global, repo: &Repo, edit: &Edit) -> Result<(), Trouble> {
    let mut copy = WorkingCopy::checkout(alloc, repo, Rev(1))?;
    apply_or_leave(alloc, repo, &mut copy, edit.calls)?;
    has(alloc, &copy, edit.shown, "an edit leaves something else")
}

fn edit_rows() -> &'static [Edit] {
    &EDITS
}

fn apply_edits(alloc: Global, repo: &Repo) -> Result<(), Trouble> {
    for edit in edit_rows() {
        apply_edit(alloc, repo, edit)?;
    }
    Ok(())
}

/// Edits that an applier takes or refuses. The edit is begun anew, on a copy as it was, if an allocation fails.
pub(crate) fn edits(alloc: Global) -> Result<(), Trouble> {
    let repo = changed_file(alloc)?;
    apply_edits(alloc, &repo)
}
