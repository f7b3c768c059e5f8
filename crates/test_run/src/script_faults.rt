// The numbers, statuses and texts of the faults of a script.
use std::alloc::{AllocError, Global};
use svn_script::ScriptFault;

static FAULTS: [ScriptFault; 5] = [
    ScriptFault::BadLine(3),
    ScriptFault::TooLong,
    ScriptFault::Read,
    ScriptFault::Write,
    ScriptFault::Memory,
];

const LINES: &str = "\
61 2 line 3: bad line
62 2 script too long
63 1 read fault
64 1 write fault
65 1 out of memory
";

fn fault_lines(alloc: Global) -> Result<String, AllocError> {
    let mut lines = String::new(alloc);
    for fault in &FAULTS {
        writeln!(lines, "{} {} {fault}", fault.number(), fault.status())?;
    }
    Ok(lines)
}

#[test]
fn faults_have_their_lines(rt: HostRuntime) -> Result<(), AllocError> {
    let lines = fault_lines(rt.alloc())?;
    assert_eq!(rt; lines.as_str(), LINES);
    Ok(())
}
