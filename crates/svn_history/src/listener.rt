//! What hears how far a dump is loaded.
use svn_types::Rev;

/// Hears of each revision that was loaded, in their order, once each: to show progress, or to keep a log. What it does changes nothing of the history,
/// which waits for it.
pub trait LoadListener {
    ghost use Rattle.std.specs.Prelude.{ℕ};

    // of the listener before, the revision, the bytes, and the listener after; where it isn't said, nothing is known of what it does
    ghost hears: { Self → ℕ → ℕ → Self → Type 0 } = { λ _ _ _ _. Unit {0} };

    /// The newest revision of the repository, and how many bytes of the dump are before what is read next.
    fn loaded(&mut self, rev: Rev, bytes: u64)
        ensures { hears self.old rev bytes self.new };
}

/// Hears of nothing.
#[derive(Clone, Copy, Debug)]
pub struct NoLoadListener;

impl LoadListener for NoLoadListener {
    fn loaded(&mut self, _rev: Rev, _bytes: u64) {}
}
