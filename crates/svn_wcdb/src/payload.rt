//! The bytes of a row, which may go on in overflow pages.
ghost use Rattle.std.specs.Prelude.{◌≡◌, ◌+◌, ◌<◌, true, IfOk};
ghost use Rattle.sqlite_format.specs.Cell.{IsBody};
ghost use Rattle.svn_wcdb.specs.Reading.{Gives, Answers};
ghost use Rattle.svn_wcdb.specs.Images.{page_in, seen_file};
ghost use Rattle.svn_wcdb.specs.Tables.{take_page, link_after, chain_end, chain_after, has_short_length, payload_of};

use crate::fault::{Reason, WcdbFault};
use crate::pages::Image;
use sqlite_format::bytes::get_u32;
use sqlite_format::{Tree, cell, varint};
use std::alloc::Global;

/// Takes one of the pages that a table may still take.
pub(crate) fn take_page(number: u32, spare: usize) -> Result<usize, Reason>
    ensures taken { Answers (λ left. left) result (take_page number spare) }
    ensures fewer { IfOk result (λ left. spare ≡ left + 1) }
{
    if spare == 0 {
        Err(Reason::Loop(number))
    } else {
        Ok(spare - 1)
    }
}

// Appends what of `left` bytes is in an overflow page. Returns the next page, and how many bytes are left for it.
#[tactic(auto, unfolding(crate::specs::Tables::link_after))]
fn push_link(
    image: &Image,
    number: u32,
    left: u64,
    out: &mut Vec<u8>,
) -> Result<(u32, u64), WcdbFault>
    ensures { Gives (λ next. (next.0, next.1, out.new.items)) result (link_after (page_in (seen_file image.now)) image.now.usable number left out.old.items) }
{
    let Some(page) = image.page(number) else {
        return Err(WcdbFault::Refused(Reason::BadOverflow(number)));
    };
    let here = left.min(page.len() as u64 - 4);
    out.extend_from_slice(&page[4..4 + here as usize])?;
    Ok((get_u32(page, 0), left - here))
}

// The last page of a chain names none.
#[tactic(auto, unfolding(crate::specs::Tables::chain_end))]
fn check_end(number: u32) -> Result<(), WcdbFault>
    ensures { (bytes : _) (spare : _) → Gives (λ _. (bytes, spare)) result (chain_end number bytes spare) }
{
    if number == 0 {
        Ok(())
    } else {
        Err(WcdbFault::Refused(Reason::BadOverflow(number)))
    }
}

// Appends what a chain of overflow pages has, so many bytes in all.
fn push_chain(
    image: &Image,
    first: u32,
    len: u64,
    spare: &mut usize,
    out: &mut Vec<u8>,
) -> Result<(), WcdbFault>
    ensures { Gives (λ _. (out.new.items, spare.new)) result (chain_after (page_in (seen_file image.now)) image.now.usable spare.old first len out.old.items) }
{
    let mut number = first;
    let mut left = len;
    'links: while left > 0 {
        *spare = take_page(number, *spare)?;
        let (next, rest) = push_link(image, number, left, out)?;
        number = next;
        left = rest;
    }
    check_end(number)
}

// Whether the length of a row's payload takes at most eight bytes. SQLite takes seven bits of a ninth byte where others have eight.
#[tactic(auto, unfolding(sqlite_format::specs::Cell::body_size))]
fn has_short_length(row: &[u8], size: usize) -> bool
    requires { IsBody Tree.Table true size row.now }
    ensures { result ≡ has_short_length row.now }
{
    let Some((_, len)) = varint::get(row) else {
        unreachable!()
    };
    len < varint::MAX_LEN
}

/// Reads the payload of a row of a table.
#[tactic(auto, unfolding(crate::specs::Tables::payload_of))]
pub(crate) fn read_payload(
    alloc: Global,
    image: &Image,
    row: &[u8],
    spare: &mut usize,
) -> Result<Vec<u8>, WcdbFault>
    requires { IsBody Tree.Table true image.now.usable row.now }
    ensures { Gives (λ bytes. (bytes.items, spare.new)) result (payload_of (page_in (seen_file image.now)) image.now.usable row.now spare.old) }
{
    if !has_short_length(row, image.usable) {
        return Err(WcdbFault::Refused(Reason::BadRecord));
    }
    let Some(payload) = cell::payload_of(Tree::Table, image.usable, row) else {
        unreachable!()
    };
    let mut out = Vec::from_slice(alloc, payload.local)?;
    push_chain(image, payload.overflow, payload.spilled, spare, &mut out)?;
    Ok(out)
}
