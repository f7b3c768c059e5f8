//! Files of a copy, under names of their own.
ghost use Rattle.std.specs.Prelude.{◌≡◌, ◌++◌, codes, true, Some, IfOk, IfSome, OnOk};
ghost use Rattle.svn_digits.specs.StandIns.{is_stand_in};
ghost use Rattle.svn_folder.specs.declared.entry.Mode.{Mode as EntryMode};
ghost use Rattle.svn_folder.specs.declared.entry.Entry.TheVariants.{File};
ghost use Rattle.svn_folder.specs.States.{seen};
ghost use Rattle.svn_disk.specs.Goes.{Goes, IsAlways};
ghost use Rattle.svn_disk.specs.Places.{is_temporary, text_place};
ghost use Rattle.svn_disk.specs.Ends.{Turns, CopiesText, own_place};

use crate::fault::DiskFault;
use crate::layout::Admin;
use crate::node_file::{is_special, link_target, mode_of, props_if_locked};
use crate::steps::make;
use std::alloc::Global;
use svn_folder::{Entry, Folder};
use svn_types::{Props, RelPath, Text};

/// A file of a copy, whose pristine text is kept.
#[derive(Clone, Copy)]
pub(crate) struct Prepared<'a> {
    /// The stand-in of its text.
    pub(crate) name: &'a Text,
    /// Its properties.
    pub(crate) props: &'a Props,
    /// The time that it gets, in microseconds since 1970.
    pub(crate) time: Option<u64>,
}

/// The target of a file that is a symbolic link on disk, if it is one: with `svn:special`, and a text that says so.
pub(crate) fn target_of<F: Folder>(
    alloc: Global,
    folder: &F,
    place: &RelPath,
    props: &Props,
) -> Result<Option<Text>, DiskFault>
    ensures { IfOk result (λ found. IfSome found (λ target. IsAlways (λ s. (mode : EntryMode) × (seen s place.now ≡ Some (File (codes "link " ++ target) mode))) (F.past folder.now))) }
{
    if !is_special(props) {
        return Ok(None);
    }
    match folder.look(alloc, place)? {
        Some(Entry::File(text, _)) => Ok(link_target(alloc, &text)?),
        _ => Ok(None),
    }
}

/// Makes a file, or the link that it is, under the name of that number. Returns whether it is a file. Keywords and line ends stay as they are in the
/// repository.
pub(crate) fn prepare<F: Folder>(
    alloc: Global,
    folder: &mut F,
    admin: &Admin,
    number: usize,
    file: &Prepared<'_>,
) -> Result<bool, DiskFault>
    ensures steps { Goes (is_temporary admin.now.name) (F.past folder.old) result (F.past folder.new) }
    ensures stands { OnOk result (is_stand_in file.now.name.now ≡ true) }
    ensures ends { OnOk result (Turns (CopiesText (text_place admin.now.name file.now.name.now) (own_place admin.now.name number)) (F.past folder.old) (F.past folder.new)) }
{
    let place = admin.text(alloc, file.name.as_slice())?;
    let new = admin.new_file(alloc, number)?;
    match target_of(alloc, folder, &place, file.props)? {
        Some(target) => {
            make(folder, new, Entry::Link(target))?;
            Ok(false)
        }
        None => {
            let mode = mode_of(file.props);
            admin.copy_file(alloc, folder, &place, &new, mode, file.time)?;
            Ok(true)
        }
    }
}

/// The same of a file of a copy that is on disk: one that the client has locked in the repository isn't read-only.
pub(crate) fn prepare_unless_locked<F: Folder>(
    alloc: Global,
    folder: &mut F,
    admin: &Admin,
    number: usize,
    file: (&Prepared<'_>, bool),
) -> Result<bool, DiskFault>
    ensures steps { Goes (is_temporary admin.now.name) (F.past folder.old) result (F.past folder.new) }
    ensures stands { OnOk result (is_stand_in file.entry.0.now.name.now ≡ true) }
    ensures ends { OnOk result (Turns (CopiesText (text_place admin.now.name file.entry.0.now.name.now) (own_place admin.now.name number)) (F.past folder.old) (F.past folder.new)) }
{
    let (file, is_locked) = file;
    if !is_locked {
        return prepare(alloc, folder, admin, number, file);
    }
    let props = props_if_locked(alloc, file.props)?;
    let unlocked = Prepared {
        name: file.name,
        props: &props,
        time: file.time,
    };
    prepare(alloc, folder, admin, number, &unlocked)
}
