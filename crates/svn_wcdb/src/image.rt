//! The header of a database file (fileformat2.html, section 1.3).
ghost use Rattle.std.specs.Prelude.{◌≡◌, ◌≤◌, length, IfSome, option_map};
ghost use Rattle.sqlite_pages.specs.PageMap.{IsUsableSize};
ghost use Rattle.svn_wcdb.specs.Reading.{Answers};
ghost use Rattle.svn_wcdb.specs.Images.{has_header, written_size, file_in, says_more, is_cut_off, checked_image, image_of, seen_file};

use crate::fault::Reason;
use crate::pages::Image;
use sqlite_format::bytes::{get_u16, get_u32};

/// The bytes of a file's header, with which page 1 begins.
const HEADER: usize = 100;

/// Format 31 is that of Subversion 1.8 to 1.14 (`wc.h`, `SVN_WC__VERSION`).
const FORMAT: u32 = 31;

/// The fewest bytes of a page that must be used.
const LEAST_USABLE: usize = 480;

fn has_header(bytes: &[u8]) -> bool
    ensures { result ≡ has_header bytes.now }
{
    bytes.len() >= HEADER && &bytes[..16] == b"SQLite format 3\0".as_slice()
}

// The size of a page, which is written as 1 where it is 65536.
fn written_size(written: usize) -> Option<usize>
    ensures value { result ≡ written_size written }
    ensures usable { IfSome result IsUsableSize }
{
    match written {
        512 | 1024 | 2048 | 4096 | 8192 | 16384 | 32768 => Some(written),
        1 => Some(65536),
        _ => None,
    }
}

// The bytes as a file, if its pages have a size that SQLite takes: bytes at the end of each may be reserved.
fn file_in(bytes: &[u8]) -> Option<Image<'_>>
    requires { 100 ≤ length bytes.now }
    ensures value { option_map seen_file result ≡ file_in bytes.now }
    ensures same { IfSome result (λ image. image.bytes.now ≡ bytes.now) }
{
    let size = written_size(get_u16(bytes, 16))?;
    let reserved = bytes[20] as usize;
    if LEAST_USABLE + reserved > size {
        return None;
    }
    Some(Image {
        bytes,
        size,
        usable: size - reserved,
    })
}

// Whether the header's number of pages, if it counts, is more than these.
fn says_more(bytes: &[u8], pages: usize) -> bool
    requires { 100 ≤ length bytes.now }
    ensures { result ≡ says_more bytes.now pages }
{
    get_u32(bytes, 24) == get_u32(bytes, 92) && pages < get_u32(bytes, 28) as usize
}

fn is_cut_off(size: usize, bytes: &[u8]) -> bool
    requires header { 100 ≤ length bytes.now }
    requires usable { IsUsableSize size }
    ensures { result ≡ is_cut_off size bytes.now }
{
    bytes.len() % size != 0 || says_more(bytes, bytes.len() / size)
}

// What is wrong with a file whose pages have a size.
fn fault_of(image: &Image) -> Result<(), Reason>
    requires { 100 ≤ length image.now.bytes.now }
    ensures { Answers (λ _. seen_file image.now) result (checked_image (seen_file image.now)) }
{
    let bytes = image.bytes;
    let format = get_u32(bytes, 60);
    if bytes[18] != 1 || bytes[19] != 1 {
        Err(Reason::WriteAheadLog)
    } else if get_u32(bytes, 56) != 1 {
        Err(Reason::Encoding)
    } else if format != FORMAT {
        Err(Reason::Format(format))
    } else if is_cut_off(image.size, bytes) {
        Err(Reason::CutOff)
    } else {
        Ok(())
    }
}

/// Reads the file's header. The first of these is returned: NotADatabase, PageSize, WriteAheadLog, Encoding, Format, CutOff.
pub fn read_image(bytes: &[u8]) -> Result<Image<'_>, Reason>
    ensures { Answers seen_file result (image_of bytes.now) }
{
    if !has_header(bytes) {
        return Err(Reason::NotADatabase);
    }
    let Some(image) = file_in(bytes) else {
        return Err(Reason::PageSize);
    };
    match fault_of(&image) {
        Ok(()) => Ok(image),
        Err(reason) => Err(reason),
    }
}
