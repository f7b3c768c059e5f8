//! How a script ends before its time.
ghost use Rattle.std.specs.Prelude.{◌≡◌};
ghost use Rattle.svn_script.specs.FaultNumbers.{script_fault_number, script_status};

use thiserror::Error;

/// Why a script was given up. `svnup` prints it to standard error, after its own name.
#[derive(Clone, Copy, Debug, PartialEq, Eq, Error)]
pub enum ScriptFault {
    /// The line of this number, counted from 1, is no command. What the lines before it wrote stays written.
    #[error("line {0}: bad line")]
    BadLine(u64),
    /// The script has over 16,777,216 bytes. None of it ran.
    #[error("script too long")]
    TooLong,
    /// The script couldn't be read to its end. None of it ran.
    #[error("read fault")]
    Read,
    /// The output couldn't be written or flushed. What was written of it is unknown.
    #[error("write fault")]
    Write,
    /// An allocation failed while the script or a line of it was read, or its first state made. If one fails in a command, that command
    /// prints its refusal instead.
    #[error("out of memory")]
    Memory,
}

impl ScriptFault {
    /// The fault's number: from 61, BadLine, to 65, Memory, in the order of the variants.
    pub fn number(self) -> u32
        ensures { result ≡ script_fault_number self }
    {
        match self {
            ScriptFault::BadLine(_) => 61,
            ScriptFault::TooLong => 62,
            ScriptFault::Read => 63,
            ScriptFault::Write => 64,
            ScriptFault::Memory => 65,
        }
    }

    /// The exit status that a program gives for it: 2 where the script is at fault, else 1.
    pub fn status(self) -> u8
        ensures { result ≡ script_status self }
    {
        match self {
            ScriptFault::BadLine(_) => 2,
            ScriptFault::TooLong => 2,
            ScriptFault::Read => 1,
            ScriptFault::Write => 1,
            ScriptFault::Memory => 1,
        }
    }
}
