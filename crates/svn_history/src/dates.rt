//! Dates of revisions.
ghost use Rattle.std.specs.Prelude.{◌≡◌};
ghost use Rattle.svn_history.specs.Dates.{micros_of};

use jiff_fmt::temporal::parse_timestamp;

/// The microseconds from the beginning of 1970 up to a date, as `svn:date` has it; None if it can't be read.
pub(crate) fn micros_of(date: &[u8]) -> Option<i64>
    ensures { result ≡ micros_of date.now }
{
    match parse_timestamp(date) {
        Ok(moment) => Some((moment.nanosecond / 1_000) as i64),
        Err(_) => None,
    }
}
