//! Keys of paths, by which they are compared.
ghost use Rattle.std.specs.Prelude.{◌≡◌, ◌∷◌, ◌++◌, [], length, IfOk, IsUtf8, true};
ghost use Rattle.svn_types.specs.PathKeys.{path_key, is_plain_path};

use crate::name::Name;
use crate::short_key::ShortKey;
use std::alloc::{AllocError, Global};
use std::marker::Model;
use std::str;

// The longest key that lies in the value itself. With it a path of many names has a block of 88 bytes and one for its names.
const MAX_SHORT: usize = 54;

#[derive(Drop)]
enum KeyForm {
    Short(ShortKey<54>),
    Long(Vec<u8>),
}

/// The key of a path: its names in one run of bytes, the byte 1 after each. As no name has a byte below 32, the order of the keys is that of
/// the paths. It is a text, since texts are compared many bytes at a time. A contract sees it as its bytes.
#[derive(Drop)]
pub(crate) struct PathKey {
    form: KeyForm,
}

impl Model for PathKey {
    ghost use Rattle.std.specs.Prelude.{ℕ, List, IsUtf8};
    ghost use Rattle.svn_types.specs.Forms.{key_bytes};

    ghost Value = { List ℕ };

    ghost view = { λ k. key_bytes k.form };

    ghost invariant = { λ k. ∥ IsUtf8 (key_bytes k.form) ∥₁ };
}

// The key of these names, which has that many bytes, in a vector.
fn long_of(alloc: Global, names: &[Name], len: usize) -> Result<Vec<u8>, AllocError>
    ensures key { IfOk result (λ v. v.items ≡ path_key names.now) }
    ensures plain { IfOk result (λ _. is_plain_path names.now ≡ true) }
    ensures text { IfOk result (λ v. ∥ IsUtf8 v.items ∥₁) }
{
    let mut key = Vec::with_capacity(alloc, len)?;
    for name in names {
        key.extend_from_slice(name.as_str().as_bytes())?;
        key.push(1)?;
    }
    Ok(key)
}

impl PathKey {
    /// The key of these names, which has that many bytes. A short one takes no memory.
    pub(crate) fn of(alloc: Global, names: &[Name], len: usize) -> Result<PathKey, AllocError>
        requires { len ≡ length (path_key names.now) }
        ensures key { IfOk result (λ k. k ≡ path_key names.now) }
        ensures plain { IfOk result (λ k. is_plain_path names.now ≡ true) }
    {
        if len <= MAX_SHORT {
            return Ok(PathKey {
                form: KeyForm::Short(ShortKey::of(names)),
            });
        }
        Ok(PathKey {
            form: KeyForm::Long(long_of(alloc, names, len)?),
        })
    }

    /// The key that is these texts, one after the other.
    pub(crate) fn joined(
        alloc: Global,
        above: &str,
        below: &str,
        end: &str,
    ) -> Result<PathKey, AllocError>
        ensures { IfOk result (λ k. k ≡ above.now ++ below.now ++ end.now) }
    {
        let len = above
            .len()
            .saturating_add(below.len())
            .saturating_add(end.len());
        if len <= MAX_SHORT {
            return Ok(PathKey {
                form: KeyForm::Short(ShortKey::joined(above, below, end)),
            });
        }
        let mut key = Vec::with_capacity(alloc, len)?;
        key.extend_from_slice(above.as_bytes())?;
        key.extend_from_slice(below.as_bytes())?;
        key.extend_from_slice(end.as_bytes())?;
        Ok(PathKey {
            form: KeyForm::Long(key),
        })
    }

    /// Its text.
    pub(crate) fn as_str(&self) -> &str
        ensures { result.now ≡ self.now }
    {
        match &self.form {
            KeyForm::Short(key) => key.as_str(),
            KeyForm::Long(key) => unsafe { str::from_utf8_unchecked(key) },
        }
    }
}
