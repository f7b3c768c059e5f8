// A script that is cut off at any byte gives the output of the lines before the cut. What is left of the line is a line of its own: without a
// byte it does nothing, a command runs, and anything else is a bad line.
use crate::whole_scripts::scripts::{IN_TURN, ends};
use std::alloc::AllocError;
use std::process::Abort;
use std::sync::Wait;
use std::thread::Threads;
use svn_update::ScriptFault;

// A line, the length from which on a beginning of it is a command, and what the line prints.
struct Line {
    text: &'static str,
    shortest: usize,
    output: &'static str,
}

static LINES: [Line; 8] = [
    Line {
        text: "put f a",
        shortest: 7,
        output: "",
    },
    Line {
        text: "commit",
        shortest: 6,
        output: "committed 1\n",
    },
    Line {
        text: "checkout 1",
        shortest: 10,
        output: "ok\n",
    },
    Line {
        text: "put f abc",
        shortest: 7,
        output: "",
    },
    Line {
        text: "commit",
        shortest: 6,
        output: "committed 2\n",
    },
    Line {
        text: "drive 2",
        shortest: 7,
        output: "\
set_target_revision 2
open_root 1 #0
open_file f #0 1 #1
apply_text #1 0cc175b9c0f1b6a831c399e269772661 abc
close_file #1 900150983cd24fb0d6963f7d28e17f72
close_directory #0
close_edit
",
    },
    Line {
        text: "update 2",
        shortest: 8,
        output: "closed 7\n",
    },
    Line {
        text: "show",
        shortest: 4,
        output: ". dir 2 .\nf file 2 f abc\n",
    },
];

// The lines before the one that is cut, and what they print.
#[derive(Drop)]
struct Before {
    script: String,
    output: String,
    lines: u64,
}

impl Before {
    // What the beginning of a line prints after these.
    fn output_of(&self, line: &Line, at: usize) -> Result<String, AllocError> {
        let mut output = self.output.clone()?;
        if at == line.text.len() {
            output.push_str(line.output)?;
        }
        Ok(output)
    }

    // How a script ends after that many bytes of a line.
    fn end_of(&self, line: &Line, at: usize) -> Result<(), ScriptFault> {
        if 0 < at && at < line.shortest {
            return Err(ScriptFault::BadLine(self.lines.saturating_add(1)));
        }
        Ok(())
    }

    fn cut_line(
        &self,
        rt: &(impl Abort + AllocGlobal + Threads + Wait + Sync),
        line: &Line,
        at: usize,
    ) -> Result<(), AllocError> {
        let mut script = Vec::from_slice(rt.alloc(), self.script.as_str().as_bytes())?;
        script.extend_from_slice(line.text.as_bytes().get(..at).unwrap_or(&[]))?;
        let output = self.output_of(line, at)?;
        ends(
            rt,
            &IN_TURN,
            &script,
            self.end_of(line, at),
            output.as_str(),
        );
        Ok(())
    }

    fn add_line(&mut self, line: &Line) -> Result<(), AllocError> {
        self.script.push_str(line.text)?;
        self.script.push('\n')?;
        self.output.push_str(line.output)?;
        self.lines = self.lines.saturating_add(1);
        Ok(())
    }
}

// Each beginning of a line after those before it, and then the whole line.
fn cut_each(
    rt: &(impl Abort + AllocGlobal + Threads + Wait + Sync),
    before: &mut Before,
    line: &Line,
) -> Result<(), AllocError> {
    for at in 0..=line.text.len() {
        before.cut_line(rt, line, at)?;
    }
    before.add_line(line)
}

// What the whole script is, and what it prints.
fn cut_all(rt: &(impl Abort + AllocGlobal + Threads + Wait + Sync)) -> Result<Before, AllocError> {
    let mut before = Before {
        script: String::new(rt.alloc()),
        output: String::new(rt.alloc()),
        lines: 0,
    };
    for line in &LINES {
        cut_each(rt, &mut before, line)?;
    }
    Ok(before)
}

#[test]
fn each_beginning_of_a_script(rt: HostRuntime) -> Result<(), AllocError> {
    let whole = cut_all(&rt)?;
    ends(
        &rt,
        &IN_TURN,
        whole.script.as_str().as_bytes(),
        Ok(()),
        &whole.output,
    );
    Ok(())
}
