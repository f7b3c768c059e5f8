//! Branches that no call reaches.
ghost use Rattle.std.specs.Prelude.{◌≡◌};

/// The fault of a branch that no sequence of calls reaches, and that exists only because no clause carries the fact that rules it out. It is
/// the fault that is passed, so that a contract which names the only fault holds there too. Each use says why the branch can't be reached.
pub fn impossible<F>(fault: F) -> F
    ensures { result ≡ fault }
{
    fault
}
