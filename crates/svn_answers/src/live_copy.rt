//! A working copy that is compared with what a server says.
ghost use Rattle.std.specs.Prelude.{◌≡◌, IfOk, IfErr};
ghost use Rattle.std.specs.Option.{option_copied};
ghost use Rattle.svn_answers.specs.LiveAnswers.{IsLiveCopy, IsLiveCopyFault};

use crate::copies::{Copies, Opened};
use crate::examination::Examination;
use crate::fault::CopyFault;
use std::alloc::Global;
use svn_disk_audit::{DiskCopy, Reading, read_copy};
use svn_dump::Texts;
use svn_wcdb::Takes;

/// Reads the copy that a word names, or the part of one that is in the folder of that name, as a copy of its own whose texts are kept as their MD5
/// checksums. It must be of the repository of this UUID, where one is given. Refused as the opener refuses it, then where it was changed while it was read,
/// then as [`read_copy`] refuses it.
pub fn read_live_copy<C: Copies>(
    alloc: Global,
    copies: &C,
    uuid: Option<&[u8]>,
    name: &str,
) -> Result<DiskCopy, CopyFault<C::Fault>>
    ensures copy { IfOk result (λ d. IsLiveCopy (C.opens copies.now) (C.stayed copies.now) (option_copied uuid.entry) name.now d) }
    ensures fault { IfErr result (λ e. IsLiveCopyFault (C.opens copies.now) (C.stayed copies.now) name.now e) }
{
    let Opened {
        database,
        below,
        examiner,
    } = match copies.open(name) {
        Ok(opened) => opened,
        Err(fault) => return Err(CopyFault::Refused(fault)),
    };
    let mut examination = Examination {
        alloc,
        uuid,
        notes: None,
        examiner,
    };
    let reading = Reading {
        takes: Takes::Whole,
        texts: Texts::Md5,
        below: &below,
    };
    let found = read_copy(alloc, reading, &database, &mut examination);
    if let Err(fault) = copies.look_again(name, &database, &examination.examiner) {
        return Err(CopyFault::Refused(fault));
    }
    match found {
        Ok(found) => Ok(found),
        Err(fault) => Err(CopyFault::Audit(fault)),
    }
}
