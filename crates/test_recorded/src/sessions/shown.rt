//! Bytes as they are printed.

use std::alloc::{AllocError, Global};

fn push_shown(text: &mut String, byte: u8) -> Result<(), AllocError> {
    match byte {
        b'\n' => text.push_str("\\n"),
        b'\\' => text.push_str("\\\\"),
        b' '..=b'~' => Ok(text.push(char::from(byte))?),
        _ => {
            let alloc = *text.allocator();
            text.push_str(format!(in alloc; "\\x{byte:02x}")?.as_str())
        }
    }
}

/// Longer runs of a byte are counted.
const LONGEST: usize = 1000;

/// A text, and a run of a byte after it.
#[derive(Drop)]
struct Line {
    text: String,
    last: u8,
    count: usize,
}

impl Line {
    // The run as it is, or with its length.
    fn push_run(&mut self) -> Result<(), AllocError> {
        if self.count > LONGEST {
            push_shown(&mut self.text, self.last)?;
            let alloc = *self.text.allocator();
            let count = self.count;
            return self
                .text
                .push_str(format!(in alloc; "{{{count}}}")?.as_str());
        }
        for _ in 0..self.count {
            push_shown(&mut self.text, self.last)?;
        }
        Ok(())
    }

    fn end_run(&mut self) -> Result<(), AllocError> {
        self.push_run()?;
        self.count = 0;
        Ok(())
    }

    fn push(&mut self, byte: u8) -> Result<(), AllocError> {
        if byte != self.last {
            self.end_run()?;
            self.last = byte;
        }
        self.count = self.count.saturating_add(1);
        Ok(())
    }
}

/// A line of bytes, in which those that aren't printed are escaped, and long runs of one byte are counted.
pub(crate) fn shown(alloc: Global, bytes: &[u8]) -> Result<String, AllocError> {
    let mut line = Line {
        text: String::new(alloc),
        last: 0,
        count: 0,
    };
    for byte in bytes {
        line.push(*byte)?;
    }
    line.end_run()?;
    let Line { text, .. } = line;
    Ok(text)
}
