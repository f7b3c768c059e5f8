//! What the texts of a repository stand for.
ghost use Rattle.std.specs.Prelude.{◌≡◌, ℕ, List, true, length, IfOk};
ghost use Rattle.md5.specs.Md5.{md5};
ghost use Rattle.svn_digits.specs.StandIns.{stand_in};
ghost use Rattle.svn_wire_calls.specs.Pieces.{sums_of};
ghost use Rattle.svn_replies.specs.Texts.{by_stand_ins, stands, sum_in, place_of_none, place_by, place_in, known_len, known_md5};

use crate::served::{Holds, Served};
use std::alloc::{AllocError, Global};
use svn_digits::{is_stand_in, stand_in_of};
use svn_dump::{DumpIndex, TextPlace};
use svn_types::{Digest, Sha1Sum, Text};
use svn_wire_calls::{SendFault, Stretch, TextMap, TextSums};

/// How many bytes of a stand-in come before its digits.
const MARK: usize = 6;

fn by_stand_ins(holds: Holds) -> bool
    ensures { result ≡ by_stand_ins holds }
{
    match holds {
        Holds::Texts => false,
        Holds::StandIns => true,
    }
}

// The checksum that a stand-in has.
fn sum_in(held: &[u8]) -> Option<Sha1Sum>
    ensures { result ≡ sum_in held.now }
{
    if !is_stand_in(held) {
        return None;
    }
    let (_mark, digits) = held.split_at(MARK);
    let mut sum = [0; 20];
    match hex::decode_to_slice(digits, &mut sum) {
        Ok(()) => Some(Sha1Sum(sum)),
        Err(_) => None,
    }
}

// Where the text of no bytes is, of which a dump need say nothing.
fn place_of_none(sum: &Sha1Sum) -> Option<TextPlace>
    ensures { result ≡ place_of_none sum.now }
{
    if *sum == Sha1Sum::of(&[]) {
        Some(TextPlace {
            begin: 0,
            len: 0,
            md5: Digest::of(&[]),
        })
    } else {
        None
    }
}

// Where the text with this checksum is.
fn place_by(index: &DumpIndex, sum: &Sha1Sum) -> Option<TextPlace>
    ensures { result ≡ place_by index.now sum.now }
{
    match index.text(sum) {
        Some(place) => Some(place),
        None => place_of_none(sum),
    }
}

impl Served {
    // Whether a text stands for another.
    fn stands(&self, held: &[u8]) -> bool
        ensures { result ≡ stands self.now held.now }
    {
        by_stand_ins(self.holds) && is_stand_in(held)
    }

    // Where the text is that one stands for.
    fn place_in(&self, held: &[u8]) -> Option<TextPlace>
        ensures { result ≡ place_in self.now.index held.now }
    {
        match sum_in(held) {
            Some(sum) => place_by(&self.index, &sum),
            None => None,
        }
    }

    /// How many bytes the text has that one stands for.
    pub(crate) fn known_len(&self, held: &[u8]) -> u64
        ensures { result ≡ known_len self.now held.now }
    {
        if !self.stands(held) {
            return held.len() as u64;
        }
        match self.place_in(held) {
            Some(place) => place.len,
            // an index of all of the dump has it
            None => 0,
        }
    }

    /// Its MD5 checksum.
    pub(crate) fn known_md5(&self, held: &Text) -> Option<Digest>
        ensures { result ≡ known_md5 self.now held.now }
    {
        if !self.stands(held.as_slice()) {
            return Some(held.checksum());
        }
        match self.place_in(held.as_slice()) {
            Some(place) => Some(place.md5),
            None => None,
        }
    }
}

// Whether a text with these checksums is the one at a place, whose stand-in this is.
fn is_at(alloc: Global, held: &Text, place: TextPlace, found: &TextSums) -> Result<bool, AllocError>
    ensures { IfOk result (λ is. is ≡ true → (text : List ℕ) → found.now ≡ sums_of text → (stand_in text ≡ held.now) × (md5 text ≡ place.md5) × (length text ≡ place.len)) }
{
    if stand_in_of(alloc, &found.sha1.0)? != *held {
        return Ok(false);
    }
    if found.md5 != place.md5 {
        return Ok(false);
    }
    Ok(found.len == place.len)
}

impl TextMap for Served {
    ghost use Rattle.svn_replies.specs.Texts.{IsText, IsSum};

    ghost stands_for = { IsText };

    ghost sums = { IsSum };

    fn is_whole(&self) -> bool {
        !by_stand_ins(self.holds)
    }

    fn place(&self, _alloc: Global, held: &Text) -> Result<Option<Stretch>, SendFault> {
        if !self.stands(held.as_slice()) {
            return Ok(None);
        }
        match self.place_in(held.as_slice()) {
            Some(place) => Ok(Some(Stretch {
                begin: place.begin,
                len: place.len,
            })),
            None => Err(SendFault::Unknown),
        }
    }

    fn is_text(&self, alloc: Global, held: &Text, found: &TextSums) -> Result<bool, SendFault> {
        if !self.stands(held.as_slice()) {
            return Ok(false);
        }
        match self.place_in(held.as_slice()) {
            Some(place) => Ok(is_at(alloc, held, place, found)?),
            None => Ok(false),
        }
    }

    fn known_sum(&self, _alloc: Global, held: &Text) -> Result<Option<Digest>, SendFault> {
        Ok(self.known_md5(held))
    }
}
