//! What a drive is asked for.
ghost use Rattle.std.specs.Prelude.{◌≡◌, Some, None, true, false};
ghost use Rattle.svn_editor.specs.declared.mode.Mode.TheVariants.{Update, SwitchTo};

use svn_editor::Mode;
use svn_types::{RelPath, Rev};

/// How a drive is made. The default goes to its end, with texts in place.
#[derive(Clone, Copy, Debug, Default, PartialEq, Eq)]
pub struct DriveOptions {
    /// After how many calls the drive is given up, if it has more: then it makes `AbortEdit`, which isn't counted. None: it goes to its end.
    pub cancel_after: Option<u64>,
    /// Whether the texts of files come after all directories are closed, as the order of `svn_delta.h` allows.
    pub late_texts: bool,
}

/// What a drive or a run is asked for: where it leads, and how it is made.
#[derive(Clone, Debug, PartialEq, Eq, Drop)]
pub struct Request {
    /// The revision that it leads to.
    pub target: Rev,
    /// Whether it is an update, or a switch of the whole copy.
    pub mode: Mode,
    /// How it is made.
    pub options: DriveOptions,
}

impl Request {
    /// An update to a revision, to its end and with texts in place.
    pub fn update(target: Rev) -> Request
        ensures { result ≡ record { target = target; mode = Update; options = record { cancel_after = None; late_texts = false } } }
    {
        Request {
            target,
            mode: Mode::Update,
            options: DriveOptions {
                cancel_after: None,
                late_texts: false,
            },
        }
    }

    /// A switch of the whole copy to a path of the repository, at a revision, to its end and with texts in place.
    pub fn switch_to(path: RelPath, target: Rev) -> Request
        ensures { result ≡ record { target = target; mode = SwitchTo path; options = record { cancel_after = None; late_texts = false } } }
    {
        Request {
            target,
            mode: Mode::SwitchTo(path),
            options: DriveOptions {
                cancel_after: None,
                late_texts: false,
            },
        }
    }

    /// Given up after that many calls, if the drive has more.
    pub fn cancel_after(self, calls: u64) -> Request
        ensures { result ≡ record { target = self.target; mode = self.mode; options = record { cancel_after = Some calls; late_texts = self.options.late_texts } } }
    {
        let Request {
            target,
            mode,
            options,
        } = self;
        Request {
            target,
            mode,
            options: DriveOptions {
                cancel_after: Some(calls),
                ..options
            },
        }
    }

    /// With the texts of files after all directories are closed.
    pub fn late_texts(self) -> Request
        ensures { result ≡ record { target = self.target; mode = self.mode; options = record { cancel_after = self.options.cancel_after; late_texts = true } } }
    {
        let Request {
            target,
            mode,
            options,
        } = self;
        Request {
            target,
            mode,
            options: DriveOptions {
                late_texts: true,
                ..options
            },
        }
    }
}
