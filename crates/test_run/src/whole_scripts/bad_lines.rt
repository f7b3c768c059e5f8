// Lines that are no command: the script ends there with the line's number, and what the lines before printed stays written.
use crate::whole_scripts::scripts::{IN_TURN, MANY_CALLS, ends};
use std::alloc::{AllocError, Global};
use std::process::Abort;
use std::sync::Wait;
use std::thread::Threads;
use svn_update::ScriptFault;

// A script whose third line is this one.
fn script_of(alloc: Global, line: &[u8]) -> Result<Vec<u8>, AllocError> {
    let mut script = Vec::from_slice(alloc, b"put f a\ncommit\n")?;
    script.extend_from_slice(line)?;
    script.extend_from_slice(b"\nshow\n")?;
    Ok(script)
}

fn is_bad(
    rt: &(impl Abort + AllocGlobal + Threads + Wait + Sync),
    line: &[u8],
) -> Result<(), AllocError> {
    let script = script_of(rt.alloc(), line)?;
    ends(
        rt,
        &IN_TURN,
        &script,
        Err(ScriptFault::BadLine(3)),
        "committed 1\n",
    );
    Ok(())
}

// Names are read letter by letter, without decoding, and a tab is no space.
static NO_NAMES: [&[u8]; 18] = [
    b"x",
    b"Commit",
    b"COMMIT",
    b"committed",
    b"commi",
    b"\"commit\"",
    b"%63ommit",
    b"\"\"",
    b"%23",
    b" # x",
    b"\tcommit",
    b"commit\t",
    b"put\tf\ta",
    b"commit;",
    b"-",
    b"\xff",
    b"commit\x00",
    b"\xef\xbb\xbfcommit",
];

static TOO_MANY_OR_TOO_FEW: [&[u8]; 15] = [
    b"mkdir",
    b"mkdir a b",
    b"put",
    b"put f",
    b"put f ",
    b"put f a b",
    b"remove",
    b"remove f g",
    b"commit 1",
    b"commit #",
    b"checkout",
    b"checkout 1 f g",
    b"update",
    b"update 1 2 3",
    b"show f",
];

// A number has 1 to 20 digits, and is at most the greatest one of 64 bits.
static NO_NUMBERS: [&[u8]; 16] = [
    b"checkout x",
    b"checkout -1",
    b"checkout +1",
    b"checkout 1x",
    b"checkout 0x1",
    b"checkout 1.0",
    b"checkout %31",
    b"checkout \"\"",
    b"checkout 18446744073709551616",
    b"checkout 99999999999999999999",
    b"checkout 000000000000000000001",
    b"checkout 100000000000000000000",
    b"update HEAD",
    b"update -1",
    b"update 18446744073709551616",
    b"update 000000000000000000001",
];

// A percent sign needs two hexadecimal digits.
static NOT_DECODED: [&[u8]; 11] = [
    b"put f %",
    b"put f a%",
    b"put f %4",
    b"put f %%",
    b"put f %4g",
    b"put f %g4",
    b"put f %-1",
    b"put % a",
    b"put f% a",
    b"mkdir %2",
    b"remove %zz",
];

static NO_PATHS: [&[u8]; 17] = [
    b"mkdir /",
    b"mkdir /a",
    b"mkdir a/",
    b"mkdir a//b",
    b"mkdir ..",
    b"mkdir a/..",
    b"mkdir ../a",
    b"mkdir ./a",
    b"mkdir a/.",
    b"mkdir %2E%2E",
    b"mkdir a%2F%2Fb",
    b"mkdir a%00",
    b"mkdir %1F",
    b"mkdir %7f",
    b"mkdir a\tb",
    b"remove a//b",
    b"put a//b a",
];

// A path's bytes must be UTF-8: no lone byte, no cut character, no overlong form, no surrogate, nothing over U+10FFFF.
static NOT_UTF8: [&[u8]; 7] = [
    b"mkdir \xff",
    b"mkdir %FF",
    b"mkdir %80",
    b"mkdir a%C3",
    b"mkdir %C0%AF",
    b"mkdir %ED%A0%80",
    b"mkdir %F4%90%80%80",
];

// One carriage return is dropped before a line feed, and none elsewhere.
static RETURNS: [&[u8]; 3] = [b"commit\r\r", b"\r\r", b"com\rmit"];

static NO_COPIES: [&[u8]; 10] = [
    b"copy",
    b"copy 1",
    b"copy 1 f",
    b"copy 1 f g h",
    b"copy f g",
    b"copy f 1 g",
    b"copy 1 a//b g",
    b"copy 1 f g/",
    b"copy -1 f g",
    b"copy %31 f g",
];

static NO_PROPERTIES: [&[u8]; 15] = [
    b"prop",
    b"prop f",
    b"prop f p",
    b"prop f p 1 2",
    b"prop f 1a 1",
    b"prop f \"\" 1",
    b"prop f a%20b 1",
    b"prop f %C3%A9 1",
    b"prop f %FF 1",
    b"prop f p %",
    b"prop a//b p 1",
    b"unprop",
    b"unprop f",
    b"unprop f p 1",
    b"unprop f -p",
];

// Each table is a static of its own, and named here alone: a function that names a table is proved with all its contents, at each step.
fn tables() -> [&'static [&'static [u8]]; 9] {
    [
        &NO_NAMES,
        &TOO_MANY_OR_TOO_FEW,
        &NO_NUMBERS,
        &NOT_DECODED,
        &NO_PATHS,
        &NOT_UTF8,
        &RETURNS,
        &NO_COPIES,
        &NO_PROPERTIES,
    ]
}

fn are_bad(
    rt: &(impl Abort + AllocGlobal + Threads + Wait + Sync),
    lines: &[&[u8]],
) -> Result<(), AllocError> {
    for line in lines {
        is_bad(rt, line)?;
    }
    Ok(())
}

#[test]
fn lines_that_are_no_command(rt: HostRuntime) -> Result<(), AllocError> {
    for lines in tables() {
        are_bad(&rt, lines)?;
    }
    Ok(())
}

// `mkdir` of a path that begins with this, repeated.
fn is_too_long(
    rt: &(impl Abort + AllocGlobal + Threads + Wait + Sync),
    part: &str,
    count: usize,
) -> Result<(), AllocError> {
    let path = part.repeat(rt.alloc(), count)?;
    let line = format!(in rt.alloc(); "mkdir {path}a")?;
    is_bad(rt, line.as_str().as_bytes())
}

// A name of 256 bytes, and a path of 129 names.
#[test]
fn paths_that_are_too_long(rt: HostRuntime) -> Result<(), AllocError> {
    is_too_long(&rt, "a", 255)?;
    is_too_long(&rt, "a/", 128)
}

// Lines without words and comments are counted like the others, and a last line without a line feed keeps its
// carriage return.
static COUNTED: [(&[u8], u64, &str); 10] = [
    (b"x", 1, ""),
    (b"x\ny\n", 1, ""),
    (b"\n\n\nx\n", 4, ""),
    (b"# x\n  \r\nmkdir d\nx\n", 4, ""),
    (b"commit\ncommit\r", 2, "committed 1\n"),
    (b"put f %4", 1, ""),
    (b"put f a b", 1, ""),
    (b"mkdir a/../b", 1, ""),
    (b"checkout 18446744073709551616", 1, ""),
    (b"prop f 1a x", 1, ""),
];

#[test]
fn each_line_is_counted(rt: HostRuntime) {
    for (script, number, output) in &COUNTED {
        ends(
            &rt,
            &MANY_CALLS,
            script,
            Err(ScriptFault::BadLine(*number)),
            output,
        );
    }
}
