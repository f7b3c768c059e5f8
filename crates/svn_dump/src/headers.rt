//! The headers of a record, read in one pass: lines of a name, a colon, a space and a value.
ghost use Rattle.std.specs.Prelude.{◌≡◌, ℕ, List, None, Some, MatchOption, IfErr, option_map, length};
ghost use Rattle.svn_dump.specs.declared.header_name.HeaderName.{HeaderName};
ghost use Rattle.svn_dump.specs.Headers.{valued, header_of, value_in, header_value, is_header, are_headers};
ghost use Rattle.svn_dump.specs.HeaderNames.{name_of};
ghost use Rattle.svn_dump.specs.GivenHeaders.{given_at, more_given};
ghost use Rattle.svn_dump.specs.Reading.{Gives};
ghost use Rattle.std.specs.Option.{option_copied};

use crate::fault::{DumpFault, Reason};
use crate::given::Given;
use crate::header_name::{COUNT, HeaderName};
use std::marker::Model;
use svn_types::split_once;

/// The headers of a record. A contract sees them as their bytes.
#[derive(Drop)]
pub(crate) struct Headers<'a> {
    block: &'a [u8],
    given: [Given<'a>; 18],
    well_formed: bool,
}

impl<'a> Model for Headers<'a> {
    ghost use Rattle.std.specs.Prelude.{ℕ, List};
    ghost use Rattle.svn_dump.specs.GivenHeaders.{IsRead};

    ghost Value = { List ℕ };

    ghost view = { λ h. h.block.now };

    ghost invariant = { λ h. IsRead h.block.now h.given h.well_formed };
}

// The value of a header, before which is a space.
fn read_value(after: &[u8]) -> Option<&[u8]>
    ensures { (name : List ℕ) → option_map (λ (value : List ℕ). (name, value)) (option_copied result) ≡ valued name after.now }
{
    match after {
        [b' ', value @ ..] => Some(value),
        _ => None,
    }
}

// The name and the value of a header.
fn read_header(line: &[u8]) -> Option<(&[u8], &[u8])>
    ensures { MatchOption result (header_of line.now ≡ None) (λ h. header_of line.now ≡ Some (h.0.now, h.1.now)) }
{
    let Some((name, after)) = split_once(line, b':') else {
        return None;
    };
    match read_value(after) {
        Some(value) => Some((name, value)),
        None => None,
    }
}

// Takes the header of a line. Whether it is one, or the line is empty.
fn take_line<'a>(given: &mut [Given<'a>; 18], line: &'a [u8]) -> bool
    ensures header { result ≡ is_header line.now }
    ensures given { (name : HeaderName) → given_at given.new name ≡ more_given (given_at given.old name) (value_in (name_of name) line.now) }
{
    let Some((name, value)) = read_header(line) else {
        return line.is_empty();
    };
    if let Some(name) = HeaderName::spelled(name) {
        let place = name.index();
        given[place] = given[place].once_more(value);
    }
    true
}

impl<'a> Headers<'a> {
    /// The headers of these bytes. What is after the last line feed counts as a line.
    pub(crate) fn of(block: &'a [u8]) -> Headers<'a>
        ensures { result ≡ block.now }
    {
        let mut given = [Given::Absent; COUNT];
        let mut well_formed = true;
        let mut rest = block;
        'lines: while let Some((line, after)) = split_once(rest, b'\n') {
            let is_header = take_line(&mut given, line);
            well_formed = well_formed && is_header;
            rest = after;
        }
        let is_header = take_line(&mut given, rest);
        Headers {
            block,
            given,
            well_formed: well_formed && is_header,
        }
    }

    /// Whether each line is a header or empty.
    pub(crate) fn are_headers(&self) -> bool
        ensures { result ≡ are_headers self.now }
    {
        self.well_formed
    }

    /// The value of a header, if it is given; Twice where it is given more than once.
    pub(crate) fn value(&self, name: HeaderName) -> Result<Option<&'a [u8]>, DumpFault>
        ensures value { Gives (λ value. option_copied value) result (header_value self.now (name_of name)) }
        ensures twice { IfErr result (λ e. e ≡ DumpFault.Refused Reason.Twice) }
    {
        match self.given[name.index()] {
            Given::Absent => Ok(None),
            Given::Once(value) => Ok(Some(value)),
            Given::Twice => Err(DumpFault::Refused(Reason::Twice)),
        }
    }
}
