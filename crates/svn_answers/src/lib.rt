//! What `svnaudit` answers of working copies that are named by words, compared with the history of a dump.
//!
//! ```
//! let loaded = Loaded::load(alloc, input, Limits::default(), Texts::Sha1, &mut NoLoadListener)?;
//! let asked = Asked { alloc, history: loaded.history(Texts::Sha1, false), copies: &copies };
//! let mut errors = WrittenNotices::new(&copies, error_writer);
//! let verdict = asked.check_written(&["trunk", "branch"], &mut output, &mut errors)?;
//! return ExitCode::from(verdict.status());
//! ```
//!
//! prints `trunk: true: 7 nodes, r2 to r3` and `branch: untrue: a: r3 has x at a, which the copy lacks`, and returns the status 1.
//!
//! Files: `loaded` loads a dump. `asked` opens and audits copies, and has `check`; `telling` the other questions, whose answers `topics` writes, of a folder
//! that is gone `deletion`. A program opens the files: `copies` is what it implements, and `busy` says when a database isn't read. `examination` compares the
//! repository; `entry` says which folders an update of the directory above can delete, and `untold` what a late dump leaves out. `checked`, `source`,
//! `revisions` print lines, `show` trees, `written` a dump. `live` asks a server in place of a dump, of copies that `live_copy` reads, at a URL of
//! `live_url`. `notices` is what hears of what an answer doesn't say; `notice_lines` and `passed_over` print it on standard error, and `both_streams` has the
//! answers with it. `working` compares files with their pristine texts. `laws` has what the nodes after an update are.
//!
//! Promises: [`Loaded::load`] gives the history of the dump's bytes and what its front says (`IsLoaded`), or the first fault of these bytes
//! (`IsDumpRefusal`). [`Asked::check`] answers each word, in their order (`answers`): what it writes are exactly the lines of the copies that were
//! audited (`specs/Lines.antt`), each by the verdict of `svn_disk_audit` on the bytes that were opened, and what it returns is the worst of all
//! verdicts. Sparse copies are checked too, and the line of a true one says what it leaves out; the other questions are answered of whole copies alone.
//! A copy that is refused has no line, and the others have theirs. A verdict, and a fault of the bytes, is reported only of a copy that stayed as it was
//! while it was read. [`Live::check`] answers so by a server, on one connection (`LiveChecks` of `specs/LiveAnswers.antt`): of each history that gives
//! the answers that came on it, the untrue paths are all untrue nodes. [`Asked::answer`] writes exactly the report, the calls, the
//! sorted lines, or the nodes that the calls leave, which of a true copy are those of the target revision (`specs/Topics.antt`); or nothing, and
//! reports why (`IsTellFault`). Exactly the notices of these answers are heard, in the order of the words (`specs/Notices.antt`). [`write_shown`] writes
//! what a revision has at a path, node by node (`specs/Shown.antt`), or refuses it as nothing is there. [`Writing`] writes the dump of exactly what
//! lines of a script do (`specs/Written.antt`); a line that is refused changes nothing. [`Asked::check_written`], [`Live::check_written`] and
//! [`Asked::answer_written`] write exactly the lines of these notices (`specs/NoticeLines.antt`), of faults whose texts are known.
#![tactic(auto)]

mod asked;
mod both_streams;
mod busy;
mod checked;
mod copies;
mod deletion;
mod entry;
mod examination;
mod fault;
mod laws;
mod left_out;
mod live;
mod live_copy;
mod live_url;
mod loaded;
mod notice_lines;
mod notices;
mod passed_over;
mod revisions;
mod show;
mod source;
mod telling;
mod topic;
mod topics;
mod untold;
mod verdict;
mod working;
mod written;

pub use asked::{Asked, History, OnDisk};
pub use busy::{BusyFault, refuse_journal};
pub use checked::Checked;
pub use copies::{Copies, Opened};
pub use examination::ExaminerFault;
pub use fault::{AnswerFault, CopyFault, TellFault};
pub use laws::nodes_are_of_the_target;
pub use live::{Connected, Live, LiveAnswerFault, Server};
pub use live_copy::read_live_copy;
pub use live_url::server_url;
pub use loaded::{DumpRefusal, Loaded};
pub use notice_lines::WrittenNotices;
pub use notices::{Notice, Notices};
pub use show::{ShowFault, write_shown};
pub use source::Source;
pub use telling::Inquiry;
pub use topic::{Topic, TopicFault};
pub use topics::{Told, write_topic};
pub use verdict::Verdict;
pub use working::{FileComparison, is_translated};
pub use written::{WriteFault, Writing};
