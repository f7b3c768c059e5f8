//! The version of the programs: one number, which the first numbered entry of `CHANGELOG.md` has too.
#![tactic(auto)]

/// What `svnup`, `svnaudit` and `svncopy` print after their names where `--version` is asked for.
pub const VERSION: &str = "0.1.0";
