//! What a checkout and a change rest on, and what follows of their promises, as the contracts of functions with nothing in them.
ghost use Rattle.svn_disk.specs.Laws.{a_directory_is_renamed_at_once, a_checkout_changes_nothing_else, a_change_changes_nothing_else, what_has_no_known_text_stays, what_changes_is_in_place};

/// Once all of a folder is on the disk a directory in it gets another name at once: a crash leaves nothing at that name, or all that was at the old one.
pub fn a_directory_is_renamed_at_once()
    ensures { a_directory_is_renamed_at_once }
{}

/// The steps of a checkout leave what is shown at a path that isn't in its folders, nor that of a node of the copy or below one.
pub fn a_checkout_changes_nothing_else()
    ensures { a_checkout_changes_nothing_else }
{}

/// The steps that bring a copy to another one leave what is shown at a path that isn't in the administrative folder, nor that of a node of either or below
/// one.
pub fn a_change_changes_nothing_else()
    ensures { a_change_changes_nothing_else }
{}

/// Steps that spare all but what has a known text leave any other file or link, outside of the administrative folder, as it is.
pub fn what_has_no_known_text_stays()
    ensures { what_has_no_known_text_stays }
{}

/// Once the changes of a list are in place, and the list has each change, a node that had to come is at its place: one of which there was none of its kind, or a
/// file with another text. Where a file was and the new copy has nothing is no file and no link.
pub fn what_changes_is_in_place()
    ensures { what_changes_is_in_place }
{}
