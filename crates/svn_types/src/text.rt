//! Texts of files and values of properties.
ghost use Rattle.std.specs.Prelude.{◌≡◌, ◌≤◌, ◌↔◌, IsTrue, [], length, nat_eq, bytes_eq, Some, None, IfSome, IfOk, IfErr, if◌then◌else◌};
ghost use Rattle.std.specs.Cmp.Lexicographic.{pointwise, nat_list_eq_equiv};
ghost use Rattle.std.specs.Cmp.{partial_equiv_from_equiv};
ghost use Rattle.md5.specs.Md5.{md5};

use crate::digest::Digest;
use crate::short_bytes::ShortBytes;
use crate::summed::{LongBytes, ShortSummed};
use std::alloc::{AllocError, Global};
use std::convert::AsSlice;
use std::fmt;
use std::marker::Model;
use std::sync::Arc;

// The longest text that lies in the value itself. With it a `Text` has 32 bytes.
const MAX_SHORT: usize = 30;

// A short text lies in the value itself, and takes no memory. A long one stays in the vector that it came in; a clone of it is a copy, and all
// clones of that copy share its bytes. A checksum fits beside a very short text, and in the part that clones share.
#[derive(Drop)]
enum TextForm {
    Short(ShortBytes<30>),
    ShortSummed(ShortSummed),
    Own(Vec<u8>),
    Shared(Arc<LongBytes>),
}

/// The text of a file, or the value of a property (`svn_string_t` of `svn_string.h`): any bytes, of any number here; a commit, an edit and a pool
/// refuse over 1,048,576. A contract sees it as their list. A clone of a long text may share its bytes. A text may keep its checksum, and so do
/// its clones then.
pub struct Text {
    form: TextForm,
}

impl Model for Text {
    ghost use Rattle.std.specs.Prelude.{ℕ, List};
    ghost use Rattle.svn_types.specs.Forms.{text_bytes};

    ghost Value = { List ℕ };

    ghost view = { λ t. text_bytes t.form };
}

impl Text {
    /// The text of these bytes. It takes no memory.
    pub fn new(bytes: Vec<u8>) -> Text
        ensures { result ≡ bytes.items }
    {
        if bytes.len() <= MAX_SHORT {
            return Text {
                form: TextForm::Short(ShortBytes::of(&bytes)),
            };
        }
        Text {
            form: TextForm::Own(bytes),
        }
    }

    /// The text that has these bytes too. AllocError if an allocation fails; up to 30 bytes take no memory.
    pub fn from_slice(alloc: Global, bytes: &[u8]) -> Result<Text, AllocError>
        ensures { IfOk result (λ t. t ≡ bytes.now) }
    {
        if bytes.len() <= MAX_SHORT {
            return Ok(Text {
                form: TextForm::Short(ShortBytes::of(bytes)),
            });
        }
        Ok(Text {
            form: TextForm::Own(Vec::from_slice(alloc, bytes)?),
        })
    }

    /// The text of a string, as [`from_slice`](Text::from_slice) of its bytes.
    pub fn from_str(alloc: Global, text: &str) -> Result<Text, AllocError>
        ensures { IfOk result (λ t. t ≡ text.now) }
    {
        Text::from_slice(alloc, text.as_bytes())
    }

    /// The text of these bytes, whose MD5 checksum (RFC 1321) this is, and which it keeps: so it isn't computed again, and a clone copies no
    /// byte. No byte is copied here either beyond 30; from 15 to 30 bytes leave no room for the checksum. AllocError if an allocation fails;
    /// up to 30 bytes take no memory. A checksum that isn't known to be that of the bytes is for [`verified`](Text::verified).
    pub fn summed(bytes: Vec<u8>, checksum: Digest) -> Result<Text, AllocError>
        requires { checksum ≡ md5 bytes.items }
        ensures { IfOk result (λ t. t ≡ bytes.items) }
    {
        if bytes.len() <= MAX_SHORT {
            return Ok(Text::short_summed(&bytes, checksum));
        }
        Text::long_summed(bytes, checksum)
    }

    // The same of few bytes, which it keeps in itself.
    fn short_summed(bytes: &[u8], checksum: Digest) -> Text
        requires fits { length bytes.now ≤ 30 }
        requires sum { checksum ≡ md5 bytes.now }
        ensures { result ≡ bytes.now }
    {
        let form = if bytes.len() <= ShortSummed::MAX {
            TextForm::ShortSummed(ShortSummed::of(bytes, checksum))
        } else {
            TextForm::Short(ShortBytes::of(bytes))
        };
        Text { form }
    }

    // The same where clones share the bytes.
    fn long_summed(bytes: Vec<u8>, checksum: Digest) -> Result<Text, AllocError>
        requires { checksum ≡ md5 bytes.items }
        ensures { IfOk result (λ t. t ≡ bytes.items) }
    {
        let alloc = *bytes.allocator();
        let bytes = LongBytes::summed(bytes, checksum);
        Ok(Text {
            form: TextForm::Shared(Arc::new(alloc, bytes)?),
        })
    }

    // The text that has these bytes too, and keeps their checksum where there is room.
    fn with_checksum(alloc: Global, bytes: &[u8], checksum: Digest) -> Result<Text, AllocError>
        requires { checksum ≡ md5 bytes.now }
        ensures { IfOk result (λ t. t ≡ bytes.now) }
    {
        if bytes.len() <= MAX_SHORT {
            return Ok(Text::short_summed(bytes, checksum));
        }
        Text::long_summed(Vec::from_slice(alloc, bytes)?, checksum)
    }

    /// The text that has these bytes too, if `checksum` is their MD5 checksum (RFC 1321), which it keeps then; None if they have another.
    /// AllocError if an allocation fails; up to 30 bytes take no memory, and a wrong checksum is found without any.
    pub fn verified(
        alloc: Global,
        bytes: &[u8],
        checksum: &Digest,
    ) -> Result<Option<Text>, AllocError>
        ensures told { IfOk result (λ t. t ≡ (if bytes_eq checksum.now (md5 bytes.now) then Some bytes.now else None)) }
        ensures refused { IfErr result (λ _. checksum.now ≡ md5 bytes.now) }
    {
        let found = Digest::of(bytes);
        if *checksum != found {
            return Ok(None);
        }
        let text = Text::with_checksum(alloc, bytes, found)?;
        Ok(Some(text))
    }

    /// A clone that keeps the checksum, so that it and its clones need not compute it again. A text that shares its bytes without one
    /// is cloned as it is, and one of 15 to 30 bytes has no room. AllocError if an allocation fails; up to 30 bytes take no memory.
    pub fn clone_with_checksum(&self, alloc: Global) -> Result<Text, AllocError>
        ensures { IfOk result (λ t. t ≡ self.now) }
    {
        if self.has_room() {
            return Text::with_checksum(alloc, self.as_slice(), self.checksum());
        }
        self.clone()
    }

    // Whether a clone has room for a checksum that isn't there yet.
    fn has_room(&self) -> bool {
        match &self.form {
            TextForm::Short(bytes) => bytes.as_slice().len() <= ShortSummed::MAX,
            TextForm::Own(_) => true,
            TextForm::ShortSummed(_) | TextForm::Shared(_) => false,
        }
    }

    /// Its MD5 checksum (RFC 1321): the one that it keeps, or computed from its bytes.
    pub fn checksum(&self) -> Digest
        ensures { result ≡ md5 self.now }
    {
        match self.kept_checksum() {
            Some(checksum) => checksum,
            None => Digest::of(self.as_slice()),
        }
    }

    /// The MD5 checksum that it keeps, if it keeps one. Nothing is computed, and a clone of a text that keeps one copies none of its bytes.
    pub fn kept_checksum(&self) -> Option<Digest>
        ensures { IfSome result (λ sum. sum ≡ md5 self.now) }
    {
        match &self.form {
            TextForm::ShortSummed(bytes) => Some(bytes.checksum()),
            TextForm::Shared(bytes) => bytes.checksum(),
            TextForm::Short(_) | TextForm::Own(_) => None,
        }
    }

    /// Its bytes in a vector of their own. AllocError if an allocation fails.
    pub fn to_vec(&self, alloc: Global) -> Result<Vec<u8>, AllocError>
        ensures { IfOk result (λ v. v.items ≡ self.now) }
    {
        Vec::from_slice(alloc, self.as_slice())
    }

    /// Its bytes. It takes no memory.
    pub fn as_slice(&self) -> &[u8]
        ensures { result.now ≡ self.now }
    {
        match &self.form {
            TextForm::Short(bytes) => bytes.as_slice(),
            TextForm::ShortSummed(bytes) => bytes.as_slice(),
            TextForm::Own(bytes) => bytes,
            TextForm::Shared(bytes) => bytes.as_slice(),
        }
    }

    /// How many bytes it has.
    pub fn len(&self) -> usize
        ensures { result ≡ length self.now }
    {
        self.as_slice().len()
    }

    /// Whether it has no byte.
    pub fn is_empty(&self) -> bool
        ensures { IsTrue result ↔ (self.now ≡ []) }
    {
        self.as_slice().is_empty()
    }
}

// So that a caller's proof sees a call, and no case of where the bytes lie.
impl Drop for Text {
    fn drop(self) {
        let Text { form } = self;
        drop(form);
    }
}

impl fmt::Debug for Text {
    fn fmt<W: fmt::Write>(&self, f: &mut fmt::Formatter<W>) -> fmt::Result {
        fmt::Debug::fmt(&self.as_slice(), f)
    }
}

impl Clone for Text {
    ghost is_clone = { λ text copy. copy ≡ text };

    fn clone(&self) -> Result<Text, AllocError> {
        let form = match &self.form {
            TextForm::Short(bytes) => TextForm::Short(bytes.copy()),
            TextForm::ShortSummed(bytes) => TextForm::ShortSummed(bytes.copy()),
            TextForm::Own(bytes) => {
                let copy = LongBytes::new(bytes.clone()?);
                TextForm::Shared(Arc::new(*bytes.allocator(), copy)?)
            }
            TextForm::Shared(bytes) => TextForm::Shared(bytes.clone()?),
        };
        Ok(Text { form })
    }
}

/// Its bytes, lent to what takes any bytes.
impl AsSlice<u8> for Text {
    ghost items = { λ t. t };

    fn as_slice(&self) -> &[u8] {
        Text::as_slice(self)
    }
}

impl PartialEq for Text {
    ghost eq = { pointwise nat_eq };

    ghost laws = { partial_equiv_from_equiv nat_list_eq_equiv };

    fn eq(&self, other: &Text) -> bool {
        self.as_slice() == other.as_slice()
    }
}

impl Eq for Text {
    ghost laws = { nat_list_eq_equiv };
}
