//! The names that refused commands print.
ghost use Rattle.std.specs.Prelude.{◌≡◌};
ghost use Rattle.svn_update.specs.FaultNames.{refusal_name};

use crate::answer::Refusal;

/// The name that a refused command prints.
pub(crate) fn refusal_name(refusal: Refusal) -> &'static str
    ensures { result.now ≡ refusal_name refusal }
{
    match refusal {
        Refusal::NoCopy => "NoCopy",
        Refusal::Memory => "Memory",
        Refusal::Commit(fault) => fault.name(),
        Refusal::Copy(fault) => fault.name(),
        Refusal::Drive(fault) => fault.name(),
        Refusal::Run(fault) => fault.name(),
    }
}
