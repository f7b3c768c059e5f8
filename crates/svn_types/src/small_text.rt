//! Texts of names, which are cheap to clone.
ghost use Rattle.std.specs.Prelude.{◌≡◌, ◌<◌, ◌∷◌, [], nat_eq, IfOk, OnOk, OnErr};
ghost use Rattle.std.specs.Arc.{arc_str_bytes};
ghost use Rattle.std.specs.Ordering.{nat_cmp};
ghost use Rattle.std.specs.Cmp.Lexicographic.{pointwise, slice_cmp};

use crate::short_bytes::ShortBytes;
use std::alloc::{AllocError, Global};
use std::cmp::Ordering;
use std::marker::Model;
use std::sync::ArcStr;
use std::{fmt, str};

// The longest text that lies in the value itself. With it a `SmallText` has 16 bytes.
const MAX_SHORT: usize = 14;

// A short text lies in the value itself, and takes no memory; a long one is shared with its clones.
#[derive(Drop)]
enum NameForm {
    Short(ShortBytes<14>),
    Long(ArcStr),
}

/// A text that never changes, and is cheap to clone. A contract sees it as its bytes.
pub(crate) struct SmallText {
    form: NameForm,
}

impl Model for SmallText {
    ghost use Rattle.std.specs.Prelude.{ℕ, List, IsUtf8};
    ghost use Rattle.svn_types.specs.Forms.{name_bytes};

    ghost Value = { List ℕ };

    ghost view = { λ t. name_bytes t.form };

    ghost invariant = { λ t. ∥ IsUtf8 (name_bytes t.form) ∥₁ };
}

impl SmallText {
    pub(crate) fn from_str(alloc: Global, text: &str) -> Result<SmallText, AllocError>
        ensures { IfOk result (λ t. t ≡ text.now) }
    {
        let bytes = text.as_bytes();
        if bytes.len() <= MAX_SHORT {
            return Ok(SmallText {
                form: NameForm::Short(ShortBytes::of(bytes)),
            });
        }
        Ok(SmallText {
            form: NameForm::Long(ArcStr::from_str(alloc, text)?),
        })
    }

    /// The text of one byte, which is ASCII. It takes no memory.
    pub(crate) fn of_byte(byte: u8) -> SmallText
        requires { byte < 128 }
        ensures { result ≡ byte ∷ [] }
    {
        SmallText {
            form: NameForm::Short(ShortBytes::of(&[byte])),
        }
    }

    /// How it compares with another in the order of bytes.
    pub(crate) fn order(&self, other: &SmallText) -> Ordering
        ensures { result ≡ slice_cmp nat_cmp self.now other.now }
    {
        match (&self.form, &other.form) {
            (NameForm::Short(bytes), NameForm::Short(others)) => bytes.order(others),
            _ => self.as_str().cmp(other.as_str()),
        }
    }

    /// Whether they are the same bytes.
    pub(crate) fn is_same(&self, other: &SmallText) -> bool
        ensures { result ≡ pointwise nat_eq self.now other.now }
    {
        self.order(other).is_eq()
    }

    /// Overwrites another text with this one, in place.
    pub(crate) fn write_to(&self, place: &mut SmallText) -> Result<(), AllocError>
        ensures written { OnOk result (place.new ≡ self.now) }
        ensures unchanged { OnErr result (place.new ≡ place.old) }
    {
        match &self.form {
            NameForm::Short(bytes) => {
                place.form = NameForm::Short(bytes.copy());
                Ok(())
            }
            NameForm::Long(text) => {
                *place = shared(text)?;
                Ok(())
            }
        }
    }

    pub(crate) fn as_str(&self) -> &str
        ensures { result.now ≡ self.now }
    {
        match &self.form {
            NameForm::Short(bytes) => unsafe { str::from_utf8_unchecked(bytes.as_slice()) },
            NameForm::Long(text) => text.as_str(),
        }
    }
}

// A text that shares its bytes. It is apart from `clone`, so that a short text, as most are, is copied as a whole.
#[inline(never)]
fn shared(text: &ArcStr) -> Result<SmallText, AllocError>
    ensures { IfOk result (λ t. t ≡ arc_str_bytes text.now) }
{
    Ok(SmallText {
        form: NameForm::Long(text.clone()?),
    })
}

// So that a caller's proof sees a call, and no case of where the text lies.
impl Drop for SmallText {
    fn drop(self) {
        let SmallText { form } = self;
        drop(form);
    }
}

impl Clone for SmallText {
    ghost is_clone = { λ text copy. copy ≡ text };

    fn clone(&self) -> Result<SmallText, AllocError> {
        match &self.form {
            NameForm::Short(bytes) => Ok(SmallText {
                form: NameForm::Short(bytes.copy()),
            }),
            NameForm::Long(text) => shared(text),
        }
    }
}

impl fmt::Debug for SmallText {
    fn fmt<W: fmt::Write>(&self, f: &mut fmt::Formatter<W>) -> fmt::Result {
        fmt::Debug::fmt(&self.as_str(), f)
    }
}
