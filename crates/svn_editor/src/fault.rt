//! Why calls are refused.
ghost use Rattle.std.specs.Prelude.{◌≡◌};
ghost use Rattle.svn_editor.specs.FaultNumbers.{order_fault_number, order_fault_name, edit_fault_number, edit_fault_name};
ghost use Rattle.svn_editor.specs.Faults.{as_edit_fault};

use std::alloc::AllocError;
use thiserror::Error;

/// Why a call is out of order, by the rules of `svn_delta.h`, which are prose at [`Editor`](crate::Editor). A call that breaks several has the
/// fault that `OrderCheck::step` of `svn_order` names first. Subversion asserts some of the rules, and leaves the effect of breaking others undefined.
#[derive(Clone, Copy, Debug, PartialEq, Eq, Error)]
pub enum OrderFault {
    /// The first call isn't that of the target revision, or a later one is.
    #[error("the target revision has to be set once, by the first call")]
    TargetFirst,
    /// A token that the call names was never given, or was given to a node of the other kind.
    #[error("no such file or directory was opened")]
    UnknownToken,
    /// The file or the directory of a token that the call names was closed.
    #[error("the file or directory is closed")]
    ClosedToken,
    /// The entry was opened, added or deleted before.
    #[error("the entry was opened, added or deleted before")]
    EntryAgain,
    /// A deleted entry was opened or added before.
    #[error("a delete comes after the entry was opened or added")]
    DeleteLate,
    /// The parent of an opened or added directory isn't the most recently opened directory that is still open.
    #[error("the parent isn't the innermost open directory")]
    NotInnermost,
    /// A directory is closed while a directory in it is open.
    #[error("a directory in it is still open")]
    OpenBelow,
    /// A property change comes between the subdirectories of its directory, or on a file whose text is postponed.
    #[error("a property change comes too late")]
    PropLate,
    /// The current file has its text and isn't closed.
    #[error("the current file has its text and has to be closed first")]
    FileOpen,
    /// The file has its text.
    #[error("the file was given its text before")]
    TextAgain,
    /// The edit ends while the root or a file is open, or before the root was opened.
    #[error("the edit ends before the root and all files are closed")]
    RootNotClosed,
    /// The edit was ended or given up before.
    #[error("the edit has ended")]
    Ended,
    /// An earlier call was refused, and this one isn't `AbortEdit`.
    #[error("an earlier call of the edit was refused")]
    Dead,
    /// A new token isn't the number of tokens given so far.
    #[error("the new token isn't the next number")]
    TokenOrder,
    /// The path isn't that of the parent with one name more.
    #[error("the path isn't the parent's with one name more")]
    WrongPath,
    /// An allocation failed.
    #[error("out of memory")]
    Memory,
    /// The text or the close of a file comes while a directory is open, after a call on another file or on a directory.
    #[error("the text of a postponed file comes while a directory is open")]
    TooEarly,
}

impl OrderFault {
    /// The fault's number, from 1, TargetFirst, to 17, TooEarly, in the order of the variants.
    pub fn number(self) -> u32
        ensures { result ≡ order_fault_number self }
    {
        match self {
            OrderFault::TargetFirst => 1,
            OrderFault::UnknownToken => 2,
            OrderFault::ClosedToken => 3,
            OrderFault::EntryAgain => 4,
            OrderFault::DeleteLate => 5,
            OrderFault::NotInnermost => 6,
            OrderFault::OpenBelow => 7,
            OrderFault::PropLate => 8,
            OrderFault::FileOpen => 9,
            OrderFault::TextAgain => 10,
            OrderFault::RootNotClosed => 11,
            OrderFault::Ended => 12,
            OrderFault::Dead => 13,
            OrderFault::TokenOrder => 14,
            OrderFault::WrongPath => 15,
            OrderFault::Memory => 16,
            OrderFault::TooEarly => 17,
        }
    }

    /// The fault's name: that of its variant.
    pub fn name(self) -> &'static str
        ensures { result.now ≡ order_fault_name self }
    {
        match self {
            OrderFault::TargetFirst => "TargetFirst",
            OrderFault::UnknownToken => "UnknownToken",
            OrderFault::ClosedToken => "ClosedToken",
            OrderFault::EntryAgain => "EntryAgain",
            OrderFault::DeleteLate => "DeleteLate",
            OrderFault::NotInnermost => "NotInnermost",
            OrderFault::OpenBelow => "OpenBelow",
            OrderFault::PropLate => "PropLate",
            OrderFault::FileOpen => "FileOpen",
            OrderFault::TextAgain => "TextAgain",
            OrderFault::RootNotClosed => "RootNotClosed",
            OrderFault::Ended => "Ended",
            OrderFault::Dead => "Dead",
            OrderFault::TokenOrder => "TokenOrder",
            OrderFault::WrongPath => "WrongPath",
            OrderFault::Memory => "Memory",
            OrderFault::TooEarly => "TooEarly",
        }
    }
}

/// Why an editor refuses a call. Each editor states which faults it has, and when; those of a working copy are here.
#[derive(Clone, Copy, Debug, PartialEq, Eq, Error)]
pub enum EditFault {
    /// The call is out of order; the fault is not `OrderFault::Memory`, which is `Memory` here.
    #[error(transparent)]
    Order(OrderFault),
    /// Nothing is present at the path that is opened or deleted.
    #[error("there is no such entry")]
    NoEntry,
    /// A file is opened as a directory, or a directory as a file.
    #[error("the entry is of the other kind")]
    WrongKind,
    /// The entry that is opened or deleted has another revision than the call says.
    #[error("the entry has another revision")]
    WrongRevision,
    /// `ApplyText` has a checksum that isn't that of the text to replace; an added file's is the empty text.
    #[error("the text that is replaced has another checksum")]
    BaseChecksum,
    /// `CloseFile` has a checksum that isn't that of the file's text from then on, whether or not a text came (Subversion looks at it only where
    /// one came).
    #[error("the resulting text has another checksum")]
    TextChecksum,
    /// An allocation failed.
    #[error("out of memory")]
    Memory,
    /// Something is present at the path that is added.
    #[error("there is an entry already")]
    EntryExists,
    /// A node would have a repository path of over 64 names: one that is added, in a switch one that is opened, or at its end any.
    #[error("a path in the repository would have over 64 names")]
    TooDeep,
    /// The text, or the value of a property, has over 1,048,576 bytes.
    #[error("a text or a value has over 1,048,576 bytes")]
    TooLong,
    /// The receiver in another thread refused an earlier call, of this number, counted from 1: the sender must stop.
    #[error("call {0} was refused")]
    Late(u64),
    /// The editor ends the drive for a reason that it keeps itself, as a writer that takes no more bytes. No editor that changes a copy returns it.
    #[error("the editor stopped")]
    Stopped,
}

impl EditFault {
    /// The fault's number: from 41, NoEntry, to 51, Stopped, in the order of the variants; a call that is out of order has the number of the order's
    /// fault.
    pub fn number(self) -> u32
        ensures { result ≡ edit_fault_number self }
    {
        match self {
            EditFault::Order(fault) => fault.number(),
            EditFault::NoEntry => 41,
            EditFault::WrongKind => 42,
            EditFault::WrongRevision => 43,
            EditFault::BaseChecksum => 44,
            EditFault::TextChecksum => 45,
            EditFault::Memory => 46,
            EditFault::EntryExists => 47,
            EditFault::TooDeep => 48,
            EditFault::TooLong => 49,
            EditFault::Late(_) => 50,
            EditFault::Stopped => 51,
        }
    }

    /// The fault's name: that of its variant; a call that is out of order has the name of the order's fault.
    pub fn name(self) -> &'static str
        ensures { result.now ≡ edit_fault_name self }
    {
        match self {
            EditFault::Order(fault) => fault.name(),
            EditFault::NoEntry => "NoEntry",
            EditFault::WrongKind => "WrongKind",
            EditFault::WrongRevision => "WrongRevision",
            EditFault::BaseChecksum => "BaseChecksum",
            EditFault::TextChecksum => "TextChecksum",
            EditFault::Memory => "Memory",
            EditFault::EntryExists => "EntryExists",
            EditFault::TooDeep => "TooDeep",
            EditFault::TooLong => "TooLong",
            EditFault::Late(_) => "Late",
            EditFault::Stopped => "Stopped",
        }
    }
}

impl From<AllocError> for OrderFault {
    ghost use Rattle.std.specs.Prelude.{◌≡◌};
    ghost use Rattle.svn_editor.specs.declared.fault.OrderFault.TheVariants.{Memory};

    ghost from_gives = { λ _ e. e ≡ Memory };

    fn from(_error: AllocError) -> OrderFault {
        OrderFault::Memory
    }
}

impl From<AllocError> for EditFault {
    ghost use Rattle.std.specs.Prelude.{◌≡◌};
    ghost use Rattle.svn_editor.specs.declared.fault.EditFault.TheVariants.{Memory};

    ghost from_gives = { λ _ e. e ≡ Memory };

    fn from(_error: AllocError) -> EditFault {
        EditFault::Memory
    }
}

/// Memory stays Memory; any other fault is a call out of order.
impl From<OrderFault> for EditFault {
    ghost from_gives = { λ fault e. e ≡ as_edit_fault fault };

    fn from(fault: OrderFault) -> EditFault {
        match fault {
            OrderFault::Memory => EditFault::Memory,
            _ => EditFault::Order(fault),
        }
    }
}
