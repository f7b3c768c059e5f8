// Scripts, run in memory.
use std::process::Abort;
use std::str;
use std::sync::Wait;
use std::thread::Threads;
use svn_update::{ScriptFault, Settings, run_script};

// On one thread, and on two with a queue of one call, and with one of many.
pub(crate) const IN_TURN: Settings = Settings {
    capacity: 64,
    in_turn: true,
};

pub(crate) const ONE_CALL: Settings = Settings {
    capacity: 1,
    in_turn: false,
};

pub(crate) const MANY_CALLS: Settings = Settings {
    capacity: 64,
    in_turn: false,
};

// How a script ended, and what it wrote.
#[derive(Drop)]
pub(crate) struct ScriptRun {
    pub(crate) ended: Result<(), ScriptFault>,
    pub(crate) output: Vec<u8>,
}

pub(crate) fn run(
    rt: &(impl AllocGlobal + Threads + Wait + Sync),
    settings: &Settings,
    script: &[u8],
) -> ScriptRun {
    let mut reader = script;
    let mut output = Vec::new(rt.alloc());
    let ended = run_script(rt, rt.alloc(), &mut reader, &mut output, settings);
    ScriptRun { ended, output }
}

impl ScriptRun {
    // What was written, as text.
    pub(crate) fn written(&self) -> &str {
        str::from_utf8(&self.output).unwrap_or("bytes that are no text")
    }

    // The script ended so, and wrote just this.
    pub(crate) fn is(&self, rt: &impl Abort, ended: Result<(), ScriptFault>, output: &str) {
        assert_eq!(rt; (self.ended, self.written()), (ended, output));
    }
}

// A script that ends so, and writes just this.
pub(crate) fn ends(
    rt: &(impl Abort + AllocGlobal + Threads + Wait + Sync),
    settings: &Settings,
    script: &[u8],
    ended: Result<(), ScriptFault>,
    output: &str,
) {
    run(rt, settings, script).is(rt, ended, output);
}
