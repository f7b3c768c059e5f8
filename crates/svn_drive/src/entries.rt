//! What an entry of a report says.
ghost use Rattle.std.specs.Prelude.{◌≡◌, ◌&&◌, ◌||◌, not, is_some};
ghost use Rattle.std.specs.Option.{option_copied, option_or};
ghost use Rattle.svn_model.specs.Sources.{revision_of, starts_empty, is_set_or_link};

use svn_report::ReportEntry;
use svn_types::Rev;

/// The revision of a set or a link.
pub(crate) fn revision_of(entry: Option<&ReportEntry>) -> Rev
    ensures { result ≡ revision_of (option_copied entry.entry) }
{
    match entry {
        Some(ReportEntry::SetPath { rev, .. }) => *rev,
        Some(ReportEntry::LinkPath { rev, .. }) => *rev,
        _ => Rev(0),
    }
}

/// Whether it says that a directory starts empty.
pub(crate) fn starts_empty(entry: Option<&ReportEntry>) -> bool
    ensures { result ≡ starts_empty (option_copied entry.entry) }
{
    match entry {
        Some(ReportEntry::SetPath { start_empty, .. }) => *start_empty,
        Some(ReportEntry::LinkPath { start_empty, .. }) => *start_empty,
        _ => false,
    }
}

/// Whether something is there.
pub(crate) fn is_set_or_link(entry: Option<&ReportEntry>) -> bool
    ensures { result ≡ is_set_or_link (option_copied entry.entry) }
{
    matches!(
        entry,
        Some(ReportEntry::SetPath { .. } | ReportEntry::LinkPath { .. })
    )
}

/// The entry that governs a path: its own, else the one that governs its parent.
pub(crate) fn own_or<'r>(
    own: Option<&'r ReportEntry>,
    above: Option<&'r ReportEntry>,
) -> Option<&'r ReportEntry>
    ensures { option_copied result ≡ option_or (option_copied own.entry) (option_copied above.entry) }
{
    match own {
        Some(entry) => Some(entry),
        None => above,
    }
}

/// Whether nothing that the report says leads to a node.
pub(crate) fn is_hidden(own: Option<&ReportEntry>, governing: Option<&ReportEntry>) -> bool
    ensures { result ≡ not (is_set_or_link (option_copied governing.entry) && (is_some (option_copied own.entry) || not (starts_empty (option_copied governing.entry)))) }
{
    !(is_set_or_link(governing) && (own.is_some() || !starts_empty(governing)))
}
