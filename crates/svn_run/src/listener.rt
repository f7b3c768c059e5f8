//! What hears of the calls of a run as they take effect.
use svn_editor::Call;
use svn_types::RelPath;

/// Hears of each call that the copy accepted, in their order, once each, in the thread of the caller: to show progress, or to keep a log. What it does
/// changes nothing of the run, which waits for it. `AbortEdit` isn't reported.
pub trait Listener {
    /// Whether it wants to hear of the next call. If it doesn't, no path is looked up.
    fn is_listening(&self) -> bool {
        true
    }

    /// The copy accepted the call, and it has taken effect. The path is that of the file or directory that the call is about, from the root of
    /// the copy; `SetTargetRevision` and `CloseEdit` have none.
    fn accepted(&mut self, call: &Call, path: Option<&RelPath>);
}

/// Hears of nothing.
#[derive(Clone, Copy, Debug)]
pub struct NoListener;

impl Listener for NoListener {
    fn is_listening(&self) -> bool {
        false
    }

    fn accepted(&mut self, _call: &Call, _path: Option<&RelPath>) {}
}
