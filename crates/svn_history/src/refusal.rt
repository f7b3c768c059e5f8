//! Where a dump is refused.

use crate::fault::LoadFault;
use std::fmt;
use svn_editor::Word;
use svn_types::Rev;

/// Why a dump isn't loaded further, and where. It prints `byte 1234: r1203 trunk/big.bin: text of 3145728 bytes, the most is 1048576`: the revision and
/// the path where there are any, the path as a word of a script.
#[derive(Clone, Copy, Debug)]
pub struct Refusal<'a> {
    /// How many bytes of the dump are before the record.
    pub byte: u64,
    /// The revision that began last, if one has.
    pub rev: Option<Rev>,
    /// The path that the record gives, if it gives one, by its bytes in the dump.
    pub path: Option<&'a [u8]>,
    /// Why.
    pub fault: LoadFault,
}

impl fmt::Display for Refusal<'_> {
    fn fmt<W: fmt::Write>(&self, f: &mut fmt::Formatter<W>) -> fmt::Result {
        let byte = self.byte;
        let fault = self.fault;
        match (self.rev, self.path) {
            (None, None) => write!(f, "byte {byte}: {fault}"),
            (Some(Rev(rev)), None) => write!(f, "byte {byte}: r{rev}: {fault}"),
            (None, Some(path)) => {
                let path = Word(path);
                write!(f, "byte {byte}: {path}: {fault}")
            }
            (Some(Rev(rev)), Some(path)) => {
                let path = Word(path);
                write!(f, "byte {byte}: r{rev} {path}: {fault}")
            }
        }
    }
}
