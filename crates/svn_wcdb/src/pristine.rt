//! Pristine texts, which are named by their stand-ins: `$sha1$` and the SHA-1 checksum in lower-case hexadecimal digits, as the column `checksum` has it.
ghost use Rattle.std.specs.Prelude.{◌≡◌, IfOk};
ghost use Rattle.svn_wcdb.specs.Pristines.{pristine_path};

use std::alloc::{AllocError, Global};
use svn_digits::is_stand_in;
use svn_types::Text;

/// How many bytes of a stand-in come before the digits.
const MARK: usize = 6;

/// Where the text of a stand-in is below `.svn/pristine`: in a folder of its first two digits, under its digits and `.svn-base`. None where the bytes
/// are no stand-in.
pub fn pristine_path(alloc: Global, name: &[u8]) -> Result<Option<Text>, AllocError>
    ensures { IfOk result (λ path. path ≡ pristine_path name.now) }
{
    if !is_stand_in(name) {
        return Ok(None);
    }
    let mut path = Vec::new(alloc);
    path.extend_from_slice(&name[MARK..MARK + 2])?;
    path.push(b'/')?;
    path.extend_from_slice(&name[MARK..])?;
    path.extend_from_slice(b".svn-base")?;
    Ok(Some(Text::new(path)))
}
