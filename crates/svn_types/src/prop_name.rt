//! Names of properties.
ghost use Rattle.std.specs.Prelude.{◌≡◌, refl, nat_eq, IfOk, Some, None};
ghost use Rattle.std.specs.List.{list_all};
ghost use Rattle.std.specs.Ordering.{nat_cmp};
ghost use Rattle.std.specs.Cmp.Lexicographic.{pointwise, slice_cmp, nat_list_eq_equiv, nat_list_cmp_total, texts_ties, texts_po};
ghost use Rattle.std.specs.Cmp.{partial_equiv_from_equiv};
ghost use Rattle.std.specs.Cmp.Rules.{hashing};
ghost use Rattle.std.specs.Hash as fed;
ghost use Rattle.std.proofs.Common.{rules};
ghost use Rattle.svn_types.specs.Names.{IsPropName, starts_prop_name, continues_prop_name, is_prop_text};
ghost use Rattle.svn_types.specs.NameFaults.{prop_name_fault, AnswersPath};

use crate::fault::PathFault;
use crate::limits::MAX_NAME_LEN;
use crate::small_text::SmallText;
use std::alloc::{AllocError, Global};
use std::cmp::Ordering;
use std::convert::AsStr;
use std::hash::{Hash, Hasher};
use std::marker::Model;
use std::{fmt, str};

/// The name of a property: 1 to 255 ASCII characters, the first a letter, `:` or `_`, the rest letters, digits, `:`, `_`, `-` and `.`
/// (`svn_prop_name_is_valid` of `svn_props.h`, which has no limit of length).
/// A contract sees it as its bytes.
#[derive(Debug, Drop)]
pub struct PropName {
    text: SmallText,
}

impl Model for PropName {
    ghost use Rattle.std.specs.Prelude.{ℕ, List};
    ghost use Rattle.svn_types.specs.Names.{IsPropName};

    ghost Value = { List ℕ };

    ghost view = { λ n. n.text };

    ghost invariant = { λ n. IsPropName n.text };
}

fn starts_name(byte: u8) -> bool
    ensures { result ≡ starts_prop_name byte }
{
    byte.is_ascii_alphabetic() || byte == b':' || byte == b'_'
}

fn continues_name(byte: u8) -> bool
    ensures { result ≡ continues_prop_name byte }
{
    starts_name(byte) || byte.is_ascii_digit() || byte == b'-' || byte == b'.'
}

fn all_continue(bytes: &[u8]) -> bool
    ensures { result ≡ list_all continues_prop_name bytes.now }
{
    bytes.iter().all(|byte| continues_name(*byte))
}

fn is_prop_name(bytes: &[u8]) -> bool
    ensures { result ≡ is_prop_text bytes.now }
{
    match bytes {
        [] => false,
        [first, rest @ ..] => starts_name(*first) && all_continue(rest),
    }
}

fn fault_of_prop_name(bytes: &[u8]) -> Option<PathFault>
    ensures { result ≡ prop_name_fault bytes.now }
{
    if bytes.is_empty() {
        Some(PathFault::EmptyComponent)
    } else if bytes.len() > MAX_NAME_LEN {
        Some(PathFault::NameTooLong)
    } else if is_prop_name(bytes) {
        None
    } else {
        Some(PathFault::BadCharacter)
    }
}

impl PropName {
    /// Reads the name of a property. The first fault in this order is returned: EmptyComponent, NameTooLong, BadCharacter; Memory comes last.
    pub fn parse(alloc: Global, text: &str) -> Result<PropName, PathFault>
        ensures { AnswersPath (prop_name_fault text.now) text.now result }
    {
        PropName::from_bytes(alloc, text.as_bytes())
    }

    /// The same of bytes, which are no name where they are no text, since a name is ASCII.
    pub fn from_bytes(alloc: Global, bytes: &[u8]) -> Result<PropName, PathFault>
        ensures { AnswersPath (prop_name_fault bytes.now) bytes.now result }
    {
        match fault_of_prop_name(bytes) {
            Some(fault) => Err(fault),
            None => Ok(PropName::from_checked(alloc, bytes)?),
        }
    }

    fn from_checked(alloc: Global, bytes: &[u8]) -> Result<PropName, AllocError>
        requires { prop_name_fault bytes.now ≡ None }
        ensures { IfOk result (λ n. n ≡ bytes.now) }
    {
        let text = unsafe { str::from_utf8_unchecked(bytes) };
        Ok(PropName {
            text: SmallText::from_str(alloc, text)?,
        })
    }

    /// Its text, of 1 to 255 bytes. It takes no memory.
    pub fn as_str(&self) -> &str
        ensures value { result.now ≡ self.now }
        ensures name { IsPropName self.now }
    {
        self.text.as_str()
    }
}

impl Clone for PropName {
    ghost is_clone = { λ name copy. copy ≡ name };

    fn clone(&self) -> Result<PropName, AllocError> {
        Ok(PropName {
            text: self.text.clone()?,
        })
    }
}

impl AsStr for PropName {
    ghost text = { λ name. name };

    fn as_str(&self) -> &str {
        PropName::as_str(self)
    }
}

impl PartialEq for PropName {
    ghost eq = { pointwise nat_eq };

    ghost laws = { partial_equiv_from_equiv nat_list_eq_equiv };

    fn eq(&self, other: &PropName) -> bool {
        self.text.is_same(&other.text)
    }
}

impl Eq for PropName {
    ghost laws = { nat_list_eq_equiv };
}

impl PartialOrd for PropName {
    ghost partial_cmp = { λ x y. Some (slice_cmp nat_cmp x y) };

    ghost laws = { texts_po };

    fn partial_cmp(&self, other: &PropName) -> Option<Ordering> {
        Some(self.cmp(other))
    }
}

impl Ord for PropName {
    ghost cmp = { slice_cmp nat_cmp };

    ghost total = { nat_list_cmp_total };

    ghost matches_partial_cmp = { λ x y. refl };

    ghost matches_eq = { texts_ties };

    fn cmp(&self, other: &PropName) -> Ordering {
        self.text.order(&other.text)
    }
}

impl fmt::Display for PropName {
    ghost output = { λ name. Some name };

    fn fmt<W: fmt::Write>(&self, f: &mut fmt::Formatter<W>) -> fmt::Result {
        let text = self.as_str();
        write!(f, "{text}")
    }
}

impl Hash for PropName {
    ghost hash_input = { fed.str };

    ghost respects_eq = { Prim.search (hashing, rules) };

    fn hash<H: Hasher>(&self, state: &mut H) {
        self.as_str().hash(state);
    }
}
