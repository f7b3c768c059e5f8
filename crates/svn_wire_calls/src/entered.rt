//! What is said of a node beside the calls: in which revision it was last changed, when, and by whom.
ghost use Rattle.std.specs.Prelude.{◌≡◌, ◌++◌, Some, OnOk, IfOk};
ghost use Rattle.std.specs.Fmt.{decimal};
ghost use Rattle.svn_wire.specs.Writing.{text_bytes};
ghost use Rattle.svn_wire_calls.specs.Commands.{baton, command};
ghost use Rattle.svn_wire_calls.specs.Calls.{optional};
ghost use Rattle.svn_wire_calls.specs.Entries.{entry_prop, entered_props};

use crate::fields::{begin, end, push_baton, push_some};
use itoa::Buffer;
use std::alloc::{AllocError, Global};
use svn_editor::Token;
use svn_types::{RelPath, Rev, Text};
use svn_wire::push_text;

/// The last change of a node. A client keeps it with each node that it adds, and can't add one of which the revision isn't known.
#[derive(Debug, Drop)]
pub struct Entered {
    /// The revision.
    pub rev: Rev,
    /// Its date, as its property `svn:date` has it.
    pub date: Option<Text>,
    /// Its author.
    pub author: Option<Text>,
}

/// The texts that are held for a file, before an edit and after it.
#[derive(Debug, Drop)]
pub struct HeldTexts {
    /// Before, if there is one.
    pub old: Option<Text>,
    /// After, if there is one.
    pub new: Option<Text>,
}

/// Says of the nodes that an edit opens or adds what a client keeps beside them.
pub trait Teller {
    ghost use Rattle.std.specs.Prelude.{Option};
    ghost use Rattle.svn_types.specs.Names.{Path};
    ghost use Rattle.svn_wire_calls.specs.declared.entered.Entered.{Entered};

    // what may be said of the node at a path of the edit
    ghost tells: { Self → Path → Option Entered → Type 0 };

    /// What is said of the node at a path of the edit; None where nothing is.
    fn tell(&self, alloc: Global, path: &RelPath) -> Result<Option<Entered>, AllocError>
        ensures { IfOk result (tells self.now path.now) };

    /// The texts that are held for the file at a path of the edit, where texts stand for others. The checksums of calls are compared with theirs.
    fn held_at(&self, alloc: Global, path: &RelPath) -> Result<HeldTexts, AllocError>;
}

/// Says nothing of any node; and each text stands for itself.
#[derive(Clone, Copy, Debug)]
pub struct NothingTold;

impl Teller for NothingTold {
    ghost use Rattle.std.specs.Prelude.{◌≡◌, None};

    ghost tells = { λ _ _ told. told ≡ None };

    fn tell(&self, _alloc: Global, _path: &RelPath) -> Result<Option<Entered>, AllocError> {
        Ok(None)
    }

    fn held_at(&self, _alloc: Global, _path: &RelPath) -> Result<HeldTexts, AllocError> {
        Ok(HeldTexts {
            old: None,
            new: None,
        })
    }
}

// One property of a node.
#[tactic(auto, unfolding(crate::specs::Commands::command))]
fn push_prop(
    out: &mut Vec<u8>,
    change: &[u8],
    token: Token,
    name: &[u8],
    value: &[u8],
) -> Result<(), AllocError>
    ensures { OnOk result (out.new.items ≡ out.old.items ++ command change.now (baton token ++ text_bytes name.now ++ optional (Some value.now))) }
{
    begin(out, change)?;
    push_baton(out, token)?;
    push_text(out, name)?;
    push_some(out, value)?;
    end(out)
}

// One property of a node, if it is known.
fn push_known(
    out: &mut Vec<u8>,
    change: &[u8],
    token: Token,
    name: &[u8],
    value: &Option<Text>,
) -> Result<(), AllocError>
    ensures { OnOk result (out.new.items ≡ out.old.items ++ entry_prop change.now token name.now value.now) }
{
    match value {
        Some(value) => push_prop(out, change, token, name, value.as_slice()),
        None => Ok(()),
    }
}

// The number of a revision as a property.
fn push_revision_prop(
    out: &mut Vec<u8>,
    change: &[u8],
    token: Token,
    name: &[u8],
    rev: Rev,
) -> Result<(), AllocError>
    ensures { OnOk result (out.new.items ≡ out.old.items ++ entry_prop change.now token name.now (Some (decimal rev))) }
{
    let mut buffer = Buffer::new();
    push_prop(out, change, token, name, buffer.format(rev.0).as_bytes())
}

/// Writes what is said of a node, by `change-dir-prop` or `change-file-prop`.
pub(crate) fn push_entered(
    out: &mut Vec<u8>,
    change: &[u8],
    token: Token,
    entered: &Entered,
) -> Result<(), AllocError>
    ensures { OnOk result (out.new.items ≡ out.old.items ++ entered_props change.now token entered.now) }
{
    push_revision_prop(out, change, token, b"svn:entry:committed-rev", entered.rev)?;
    push_known(
        out,
        change,
        token,
        b"svn:entry:committed-date",
        &entered.date,
    )?;
    push_known(
        out,
        change,
        token,
        b"svn:entry:last-author",
        &entered.author,
    )
}
