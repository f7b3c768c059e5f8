//! The locks that programs hold on parts of files, as Linux lists them.

use std::io::ErrorKind;
use std::os::unix::fs::MetadataExt;
use std::path::PathBuf;
use std::rt::Files;
use std::{fs, io};

/// Where they are listed, a line for each: `1: POSIX  ADVISORY  WRITE 4711 fd:01:131 1073741825 1073741825`.
const LIST: &str = "/proc/locks";

// The number of the file that a word like `fd:01:131` names.
fn file_number(word: &str) -> Option<u64> {
    let (device, number) = word.rsplit_once(':')?;
    if device.contains(':') {
        number.parse().ok()
    } else {
        None
    }
}

// Whether a line is about a lock for writing on a part of the file with that number, held or waited for.
fn is_lock(line: &str, number: u64) -> bool {
    let mut words = line.split_ascii_whitespace();
    let is_of_part = words.any(|word| matches!(word, "POSIX" | "OFDLCK"));
    let is_to_write = words.any(|word| word == "WRITE");
    is_of_part && is_to_write && words.any(|word| file_number(word) == Some(number))
}

// Whether a list has a lock for writing on a part of the file with that number. The device isn't compared, which some file systems give otherwise than the list.
fn lists_lock(list: &str, number: u64) -> bool {
    list.lines().any(|line| is_lock(line, number))
}

// The number of a file, if it is there.
fn number_at<T: Files>(rt: &T, place: &PathBuf) -> io::Result<Option<u64>> {
    match fs::metadata(rt, place) {
        Ok(file) => Ok(Some(file.ino())),
        Err(error) if error.kind() == ErrorKind::NotFound => Ok(None),
        Err(error) => Err(error),
    }
}

/// Whether a program has locked a part of the file at a path to write there, or waits for it. Where the system has no list none is seen.
pub(crate) fn is_locked_at<T: Files + AllocGlobal>(rt: &T, place: &PathBuf) -> io::Result<bool> {
    let Some(number) = number_at(rt, place)? else {
        return Ok(false);
    };
    match fs::read_to_string(rt, LIST) {
        Ok(list) => Ok(lists_lock(&list, number)),
        Err(error) if error.kind() == ErrorKind::NotFound => Ok(false),
        Err(error) => Err(error),
    }
}
