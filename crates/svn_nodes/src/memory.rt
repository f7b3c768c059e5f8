//! Out of memory, among the faults of an edit.
ghost use Rattle.std.specs.Prelude.{◌≡◌, IfOk, IfErr, Ok, is_ok};

use std::alloc::AllocError;
use svn_editor::EditFault;

/// The result of what takes memory and can fail in no other way, as one of an edit: its value, or Memory. It takes no memory itself.
pub fn or_memory<T>(answer: Result<T, AllocError>) -> Result<T, EditFault>
    ensures ok { IfOk result (λ v. answer ≡ Ok v) }
    ensures err { IfErr result (λ e. e ≡ EditFault.Memory) }
    ensures same { is_ok result ≡ is_ok answer }
{
    match answer {
        Ok(value) => Ok(value),
        Err(_) => Err(EditFault::Memory),
    }
}
