//! Names of files and directories.
ghost use Rattle.std.specs.Prelude.{◌≡◌, refl, nat_eq, IfOk, OnOk, OnErr, Some, None};
ghost use Rattle.std.specs.List.{list_all};
ghost use Rattle.std.specs.Ordering.{nat_cmp};
ghost use Rattle.std.specs.Cmp.Lexicographic.{pointwise, slice_cmp, nat_list_eq_equiv, nat_list_cmp_total, texts_ties, texts_po};
ghost use Rattle.std.specs.Cmp.{partial_equiv_from_equiv};
ghost use Rattle.std.specs.Cmp.Rules.{hashing};
ghost use Rattle.std.specs.Hash as fed;
ghost use Rattle.std.proofs.Common.{rules};
ghost use Rattle.svn_types.specs.Names.{IsName, is_plain, is_dots};
ghost use Rattle.svn_types.specs.NameFaults.{name_fault, AnswersPath};

use crate::fault::PathFault;
use crate::limits::MAX_NAME_LEN;
use crate::small_text::SmallText;
use std::alloc::{AllocError, Global};
use std::cmp::Ordering;
use std::convert::AsStr;
use std::fmt;
use std::hash::{Hash, Hasher};
use std::marker::Model;

/// The name of a file or a directory: 1 to 255 bytes of UTF-8 without `/` and control characters, and neither `.` nor `..`.
/// A contract sees it as its bytes.
#[derive(Debug, Drop)]
pub struct Name {
    text: SmallText,
}

impl Model for Name {
    ghost use Rattle.std.specs.Prelude.{ℕ, List};
    ghost use Rattle.svn_types.specs.Names.{IsName};

    ghost Value = { List ℕ };

    ghost view = { λ n. n.text };

    ghost invariant = { λ n. IsName n.text };
}

fn is_plain_byte(byte: u8) -> bool
    ensures { result ≡ is_plain byte }
{
    32 <= byte && byte != b'/' && byte != 127
}

fn are_plain(bytes: &[u8]) -> bool
    ensures { result ≡ list_all is_plain bytes.now }
{
    bytes.iter().all(|byte| is_plain_byte(*byte))
}

// Whether these are one point or two.
fn are_dots(bytes: &[u8]) -> bool
    ensures { result ≡ is_dots bytes.now }
{
    matches!(bytes, [b'.'] | [b'.', b'.'])
}

// Why the bytes of a text are no name. It takes no memory.
pub(crate) fn fault_of_name(bytes: &[u8]) -> Option<PathFault>
    ensures { result ≡ name_fault bytes.now }
{
    if bytes.is_empty() {
        Some(PathFault::EmptyComponent)
    } else if are_dots(bytes) {
        Some(PathFault::Dots)
    } else if bytes.len() > MAX_NAME_LEN {
        Some(PathFault::NameTooLong)
    } else if are_plain(bytes) {
        None
    } else {
        Some(PathFault::BadCharacter)
    }
}

impl Name {
    /// Reads the name of a node. The first fault in this order is returned: EmptyComponent, Dots, NameTooLong, BadCharacter; Memory comes last.
    pub fn parse(alloc: Global, text: &str) -> Result<Name, PathFault>
        ensures { AnswersPath (name_fault text.now) text.now result }
    {
        match fault_of_name(text.as_bytes()) {
            Some(fault) => Err(fault),
            None => Ok(Name::from_checked(alloc, text)?),
        }
    }

    pub(crate) fn from_checked(alloc: Global, text: &str) -> Result<Name, AllocError>
        requires { name_fault text.now ≡ None }
        ensures { IfOk result (λ n. n ≡ text.now) }
    {
        Ok(Name {
            text: SmallText::from_str(alloc, text)?,
        })
    }

    /// A name that takes no memory, for a place that holds none yet.
    pub(crate) fn blank() -> Name {
        Name {
            text: SmallText::of_byte(b'-'),
        }
    }

    /// Overwrites another name with this one, in place.
    pub(crate) fn write_to(&self, place: &mut Name) -> Result<(), AllocError>
        ensures written { OnOk result (place.new ≡ self.now) }
        ensures unchanged { OnErr result (place.new ≡ place.old) }
    {
        self.text.write_to(&mut place.text)
    }

    /// Its text, of 1 to 255 bytes. It takes no memory.
    pub fn as_str(&self) -> &str
        ensures value { result.now ≡ self.now }
        ensures name { IsName self.now }
    {
        self.text.as_str()
    }
}

impl Clone for Name {
    ghost is_clone = { λ name copy. copy ≡ name };

    fn clone(&self) -> Result<Name, AllocError> {
        Ok(Name {
            text: self.text.clone()?,
        })
    }
}

impl AsStr for Name {
    ghost text = { λ name. name };

    fn as_str(&self) -> &str {
        Name::as_str(self)
    }
}

impl PartialEq for Name {
    ghost eq = { pointwise nat_eq };

    ghost laws = { partial_equiv_from_equiv nat_list_eq_equiv };

    fn eq(&self, other: &Name) -> bool {
        self.text.is_same(&other.text)
    }
}

impl Eq for Name {
    ghost laws = { nat_list_eq_equiv };
}

impl PartialOrd for Name {
    ghost partial_cmp = { λ x y. Some (slice_cmp nat_cmp x y) };

    ghost laws = { texts_po };

    fn partial_cmp(&self, other: &Name) -> Option<Ordering> {
        Some(self.cmp(other))
    }
}

impl Ord for Name {
    ghost cmp = { slice_cmp nat_cmp };

    ghost total = { nat_list_cmp_total };

    ghost matches_partial_cmp = { λ x y. refl };

    ghost matches_eq = { texts_ties };

    fn cmp(&self, other: &Name) -> Ordering {
        self.text.order(&other.text)
    }
}

impl fmt::Display for Name {
    ghost output = { λ name. Some name };

    fn fmt<W: fmt::Write>(&self, f: &mut fmt::Formatter<W>) -> fmt::Result {
        let text = self.as_str();
        write!(f, "{text}")
    }
}

impl Hash for Name {
    ghost hash_input = { fed.str };

    ghost respects_eq = { Prim.search (hashing, rules) };

    fn hash<H: Hasher>(&self, state: &mut H) {
        self.as_str().hash(state);
    }
}
