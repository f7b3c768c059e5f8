//! What callers rest on, as the contracts of functions with nothing in them.
ghost use Rattle.svn_folder.specs.Laws.{
  a_file_is_replaced_at_once,
  a_synced_folder_stays,
  an_empty_folder_is_synced,
  steps_apart_change_nothing,
  steps_are_joined,
  what_is_shown_may_be_left,
  what_is_synced_stays,
  what_is_synced_stays_meanwhile,
};

/// A crash may leave what is shown, and does if it is the program alone that stops.
pub fn what_is_shown_may_be_left()
    ensures { what_is_shown_may_be_left }
{}

/// What is on the disk, with each name on the way to it, is there after every crash.
pub fn what_is_synced_stays()
    ensures { what_is_synced_stays }
{}

/// A file whose bytes are on the disk takes the place of another at once: a crash at any moment leaves the one or the other, and after the sync of
/// the directory the new one.
pub fn a_file_is_replaced_at_once()
    ensures { a_file_is_replaced_at_once }
{}

/// Steps that make, put, rename or remove nothing at a path, nor at a directory above it, leave what is shown there.
pub fn steps_apart_change_nothing()
    ensures { steps_apart_change_nothing }
{}

/// What is on the disk, with each name on the way to it, is there after a crash at any moment of such steps, and is on the disk after them.
pub fn what_is_synced_stays_meanwhile()
    ensures { what_is_synced_stays_meanwhile }
{}

/// A crash at a moment of some steps and more is one during the former or during the latter, and the other way round.
pub fn steps_are_joined()
    ensures { steps_are_joined }
{}

/// Once all of a folder is on the disk a crash leaves what it shows. Each path in a directory that is there, also one at which nothing is, is then on
/// the disk with each name on the way to it.
pub fn a_synced_folder_stays()
    ensures { a_synced_folder_stays }
{}

/// An empty folder is all on the disk.
pub fn an_empty_folder_is_synced()
    ensures { an_empty_folder_is_synced }
{}
