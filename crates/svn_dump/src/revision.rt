//! The properties of a revision, as far as an index has them.
ghost use Rattle.std.specs.Prelude.{◌≡◌, ◌≤◌, IfErr};
ghost use Rattle.svn_dump.specs.Counts.{Counts};
ghost use Rattle.svn_dump.specs.Reading.{Reads, FailsWith};
ghost use Rattle.svn_dump.specs.Sections.{after_sections};

use crate::fault::DumpFault;
use crate::index::RevisionNote;
use crate::input::{Input, read_bytes};
use crate::notes::Notes;
use crate::properties::read_props;
use crate::sections::{Keeping, skip_bytes, skip_sections};
use crate::shape::Lengths;
use std::alloc::{AllocError, Global};
use svn_types::{PathFault, PropName, Props, Text};

// The value of a property, if it is set.
fn value_of(alloc: Global, props: &Props, name: &str) -> Result<Option<Text>, AllocError> {
    let name = match PropName::parse(alloc, name) {
        Ok(name) => name,
        Err(PathFault::Memory) => return Err(AllocError),
        Err(_) => return Ok(None),
    };
    match props.get(&name) {
        Some(value) => Ok(Some(value.clone()?)),
        None => Ok(None),
    }
}

// What a revision's property section says; nothing if it isn't one.
fn note_of(alloc: Global, section: &[u8]) -> Result<RevisionNote, DumpFault>
    ensures fault { IfErr result (λ e. e ≡ DumpFault.Memory) }
{
    match read_props(alloc, section) {
        Ok(props) => Ok(RevisionNote {
            date: value_of(alloc, &props, "svn:date")?,
            author: value_of(alloc, &props, "svn:author")?,
        }),
        Err(DumpFault::Memory) => Err(DumpFault::Memory),
        Err(_) => Ok(RevisionNote {
            date: None,
            author: None,
        }),
    }
}

/// Passes over both sections of a revision. If an index is kept, it notes what its properties say, unless they are longer than the limit.
pub(crate) fn pass_revision<S: Input>(
    keeping: Keeping,
    source: &mut S,
    lengths: Lengths,
    notes: &mut Notes,
) -> Result<(), DumpFault>
    ensures bytes { Reads (λ u. u) (S.remaining source.old) (S.remaining source.new) result (after_sections lengths) }
    ensures counted { Counts (S.taken source.old) (S.remaining source.old) (S.taken source.new) (S.remaining source.new) }
    ensures grows { S.taken source.old ≤ S.taken source.new }
    ensures failed { FailsWith (S.failed source.old) (S.failed source.new) result }
{
    let len = lengths.props.unwrap_or(0);
    if !notes.wanted || len > keeping.limits.props as u64 {
        return skip_sections(source, lengths);
    }
    let section = read_bytes(keeping.alloc, source, len as usize)?;
    notes.revision = note_of(keeping.alloc, &section)?;
    skip_bytes(source, lengths.text.unwrap_or(0))
}
