//! Why a driver stops before the end.
ghost use Rattle.std.specs.Prelude.{◌≡◌};
ghost use Rattle.svn_model.specs.declared.stop.Stop.TheVariants.{Memory};

use std::alloc::AllocError;
use svn_editor::EditFault;

/// Why a driver makes no more calls but `AbortEdit`.
#[derive(Clone, Copy, Debug, PartialEq, Eq)]
pub enum Stop {
    /// As many calls were made as were asked for.
    Cancelled,
    /// No number is left for another call: 18,446,744,073,709,551,614 were made, and the next isn't the last.
    Full,
    /// An allocation failed.
    Memory,
    /// The editor refused a call.
    Editor(EditFault),
}

impl From<AllocError> for Stop {
    ghost from_gives = { λ fault stop. stop ≡ Memory };

    fn from(_fault: AllocError) -> Stop {
        Stop::Memory
    }
}
