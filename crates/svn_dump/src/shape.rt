//! What a record's headers say of the sections after them.
ghost use Rattle.std.specs.Prelude.{◌≡◌, ◌+◌, nat_eq, unwrap_or};
ghost use Rattle.svn_dump.specs.Reading.{Gives};
ghost use Rattle.svn_dump.specs.Shapes.{lengths_of, sums_of, base_sums_of, shape_of};

use crate::fault::{DumpFault, Reason};
use crate::fields::{is_true, md5_in, number_in, sha1_in};
use crate::header_name::HeaderName;
use crate::headers::Headers;
use svn_types::{Digest, Sha1Sum};

/// How long the sections of a record are, where it has them.
#[derive(Clone, Copy)]
pub(crate) struct Lengths {
    pub(crate) props: Option<u64>,
    pub(crate) text: Option<u64>,
}

/// The checksums of a text, if they are given.
#[derive(Clone, Copy)]
pub(crate) struct GivenSums {
    pub(crate) md5: Option<Digest>,
    pub(crate) sha1: Option<Sha1Sum>,
}

/// What the sections of a node are.
#[derive(Clone, Copy)]
pub(crate) struct Shape {
    pub(crate) lengths: Lengths,
    pub(crate) sums: GivenSums,
    /// Those of the text that a text delta is applied to.
    pub(crate) base_sums: GivenSums,
    /// Whether the properties are changes of those before.
    pub(crate) changes_props: bool,
    /// Whether the text is a difference from the one before.
    pub(crate) changes_text: bool,
}

// Whether the length of both sections is the one that is given for them together.
fn agree(props: Option<u64>, text: Option<u64>, both: u64) -> bool
    ensures { result ≡ nat_eq (unwrap_or props 0 + unwrap_or text 0) both }
{
    props.unwrap_or(0).checked_add(text.unwrap_or(0)) == Some(both)
}

/// The lengths that a record gives, if they agree.
pub(crate) fn lengths_in(headers: &Headers<'_>) -> Result<Lengths, DumpFault>
    ensures { Gives (λ lengths. lengths) result (lengths_of headers.now) }
{
    let props = number_in(headers, HeaderName::PropLength)?;
    let text = number_in(headers, HeaderName::TextLength)?;
    match number_in(headers, HeaderName::ContentLength)? {
        Some(both) if !agree(props, text, both) => Err(DumpFault::Refused(Reason::Lengths)),
        _ => Ok(Lengths { props, text }),
    }
}

/// The checksums that a record gives for its text. Before Subversion 1.6 the MD5 checksum had another name.
pub(crate) fn sums_in(headers: &Headers<'_>) -> Result<GivenSums, DumpFault>
    ensures { Gives (λ sums. sums) result (sums_of headers.now) }
{
    let new = md5_in(headers, HeaderName::TextMd5)?;
    let old = md5_in(headers, HeaderName::Checksum)?;
    let sha1 = sha1_in(headers, HeaderName::TextSha1)?;
    let md5 = if new.is_some() { new } else { old };
    Ok(GivenSums { md5, sha1 })
}

/// The checksums that a record gives for the text that its text delta is applied to.
pub(crate) fn base_sums_in(headers: &Headers<'_>) -> Result<GivenSums, DumpFault>
    ensures { Gives (λ sums. sums) result (base_sums_of headers.now) }
{
    let md5 = md5_in(headers, HeaderName::BaseMd5)?;
    let sha1 = sha1_in(headers, HeaderName::BaseSha1)?;
    Ok(GivenSums { md5, sha1 })
}

/// What a node's headers say of its sections.
#[tactic(auto, unfolding(crate::specs::Shapes::shape_of))]
pub(crate) fn shape_in(headers: &Headers<'_>) -> Result<Shape, DumpFault>
    ensures { Gives (λ shape. shape) result (shape_of headers.now) }
{
    let lengths = lengths_in(headers)?;
    let sums = sums_in(headers)?;
    let base_sums = base_sums_in(headers)?;
    let changes_props = is_true(headers, HeaderName::PropDelta)?;
    let changes_text = is_true(headers, HeaderName::TextDelta)?;
    Ok(Shape {
        lengths,
        sums,
        base_sums,
        changes_props,
        changes_text,
    })
}
