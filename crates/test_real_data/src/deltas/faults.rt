//! Deltas that are refused, each by its first fault.
use anyhow::Result;
use std::alloc::Global;
use svndiff::decode;

/// The source of all rows.
const SOURCE: &[u8] = b"0123456789";

/// A delta in hexadecimal, the most bytes that its text may have, and what is printed.
pub(crate) type Row = (&'static str, usize, &'static str);

/// `svnadmin load` of Subversion 1.14.2 refuses these too, whatever most is asked for.
static REFUSED: [Row; 29] = [
    ("", 100, "not svndiff of version 0"),
    ("5356", 100, "not svndiff of version 0"),
    ("53565800", 100, "not svndiff of version 0"),
    ("53564e01", 100, "not svndiff of version 0"),
    ("53564e03", 100, "not svndiff of version 0"),
    (
        "53564e008180808080808080800000020102826162",
        100,
        "byte 4: no integer in the header of a window",
    ),
    (
        "53564e0080808080808080808080000003010383616263",
        100,
        "byte 4: no integer in the header of a window",
    ),
    (
        "53564e0000000301038361626300",
        100,
        "byte 13: no integer in the header of a window",
    ),
    (
        "53564e000503030200030000030302000300",
        100,
        "byte 11: source view slides back",
    ),
    (
        "53564e000206030200030003030302000300",
        100,
        "byte 11: source view slides back",
    ),
    (
        "53564e000500010101817800030302000300",
        100,
        "byte 11: source view slides back",
    ),
    ("53564e000000030103836162", 100, "byte 4: window is cut off"),
    ("53564e000000030103", 100, "byte 4: window is cut off"),
    (
        "53564e00000003a080808080000383616263",
        100,
        "byte 4: window is cut off",
    ),
    (
        "53564e00000004010383616263",
        100,
        "byte 4: instructions don't fill the target view",
    ),
    (
        "53564e0000000301048361626364",
        100,
        "byte 4: new data is left over",
    ),
    (
        "53564e000000030103c3616263",
        100,
        "byte 9: unknown instruction",
    ),
    (
        "53564e0000000302038083616263",
        100,
        "byte 9: no integer in an instruction",
    ),
    (
        "53564e00000a03010003",
        100,
        "byte 9: no integer in an instruction",
    ),
    (
        "53564e00000a030b000381ffffffffffffffff7f",
        100,
        "byte 9: no integer in an instruction",
    ),
    (
        "53564e000000030303838000616263",
        100,
        "byte 10: instruction of no bytes",
    ),
    (
        "53564e00000002010383616263",
        100,
        "byte 9: instruction past the end of the target view",
    ),
    (
        "53564e0000050302000303",
        100,
        "byte 9: instruction past the end of the source view",
    ),
    (
        "53564e00000004030181430161",
        100,
        "byte 10: instruction copies bytes that are not made yet",
    ),
    (
        "53564e00000004030143008161",
        100,
        "byte 9: instruction copies bytes that are not made yet",
    ),
    (
        "53564e000000030102836162",
        100,
        "byte 9: instruction past the end of the new data",
    ),
    (
        "53564e000086a0010302000300",
        100,
        "byte 4: view of over 102400 bytes",
    ),
    (
        "53564e00000086a00104004086a00100",
        200000,
        "byte 4: view of over 102400 bytes",
    ),
    (
        "53564e00000b0302000300",
        100,
        "byte 4: source view past the end of the source",
    ),
];

/// These aren't faults for Subversion: an integer whose high bits it drops, a view after the end of the source where it reads on from the last
/// view, and a text that is longer than was asked for.
static REFUSED_HERE: [Row; 3] = [
    (
        "53564e00828080808080808080000003010383616263",
        100,
        "byte 4: no integer in the header of a window",
    ),
    (
        "53564e0008030202000200",
        100,
        "byte 4: source view past the end of the source",
    ),
    ("53564e00000003010383616263", 2, "byte 4: text too long"),
];

/// The deltas that Subversion refuses too.
pub(crate) fn refused() -> &'static [Row] {
    &REFUSED
}

/// Those that it takes.
pub(crate) fn refused_here() -> &'static [Row] {
    &REFUSED_HERE
}

// What is printed of the refusal of a delta, or `taken`.
fn refusal(alloc: Global, delta: &str, max: usize) -> Result<String> {
    let delta = hex::decode(alloc, delta)?;
    match decode(alloc, SOURCE, delta.as_slice(), max) {
        Ok(_) => Ok(String::from_str(alloc, "taken")?),
        Err(fault) => Ok(format!(in alloc; "{fault}")?),
    }
}

fn is_refused(alloc: Global, row: &Row) -> Result<bool> {
    Ok(refusal(alloc, row.0, row.1)?.as_str() == row.2)
}

/// How many of these deltas are refused otherwise.
pub(crate) fn refused_wrongly(alloc: Global, rows: &[Row]) -> Result<usize> {
    let mut others = 0usize;
    for row in rows {
        others = others.saturating_add(usize::from(!is_refused(alloc, row)?));
    }
    Ok(others)
}
