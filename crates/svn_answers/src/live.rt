//! Verdicts on working copies by what a server says.
ghost use Rattle.std.specs.Prelude.{◌≡◌, ℕ, List, map, None, option_map, unwrap_or, IfOk, IfErr, OnOk};
ghost use Rattle.std.specs.Io.KnownBytes.{Appends};
ghost use Rattle.std.specs.Option.{option_copied};
ghost use Rattle.svn_live_audit.specs.declared.fault.LiveFault.TheVariants.{Memory};
ghost use Rattle.svn_answers.specs.declared.live.LiveAnswerFault.TheVariants as faults;
ghost use Rattle.svn_answers.specs.Answers.{Answer, answer_text, notices_of, verdict_of};
ghost use Rattle.svn_answers.specs.LiveAnswers.{AsksAbout, IsConnected, IsLiveAnswer, IsLiveCopy, IsLiveCopyFault, IsNewLine, LiveChecks};
ghost use Rattle.svn_answers.specs.LiveUrls.{server_url};
ghost use Rattle.svn_answers.specs.Notices.{Heard, HearsAll};

use crate::asked::{OnDisk, write_checked};
use crate::copies::Copies;
use crate::fault::{CopyFault, TellFault};
use crate::live_copy::read_live_copy;
use crate::live_url::server_url;
use crate::notices::{Notices, hear_fault, hear_notes};
use crate::verdict::Verdict;
use std::alloc::{AllocError, Global};
use std::fmt;
use std::io::{Read, Write};
use svn_ask::Speaker;
use svn_disk_audit::{Audited, DiskCopy};
use svn_live_audit::{Link, LiveFault, LiveListener};
use svn_types::Text;
use svn_wcdb::Origin;

/// Connects a server.
pub trait Server {
    /// Why there is none.
    type Fault: fmt::Display + Drop;

    /// Reads what it sends.
    type Input: Read + Drop;

    /// Takes what is sent to it.
    type Output: Write + Drop;

    /// Connects it: for the first copy that is read, and for the next one after a fault of the server.
    fn connect(&mut self) -> Result<(Self::Input, Self::Output), Self::Fault>;
}

/// Why copies aren't answered to the last.
#[derive(Debug, Drop)]
pub enum LiveAnswerFault<F> {
    /// No server is connected.
    Connect(F),
    /// The server gives no verdict.
    Server(LiveFault),
    /// The output couldn't be written. What was written of it is unknown.
    Write,
}

impl<F> From<AllocError> for LiveAnswerFault<F> {
    ghost from_gives = { λ _ e. e ≡ faults.Server Memory };

    fn from(_error: AllocError) -> LiveAnswerFault<F> {
        LiveAnswerFault::Server(LiveFault::Memory)
    }
}

/// A connection, and the repository that is asked for.
#[derive(Drop)]
pub struct Connected<I, O> {
    link: Link<I, O>,
    // its UUID
    uuid: Text,
}

/// A server that is asked about working copies.
#[derive(Drop)]
pub struct Live<'a, C, S: Server> {
    alloc: Global,
    copies: &'a C,
    url: Option<&'a [u8]>,
    one_by_one: bool,
    server: S,
    // once it is connected
    line: Option<Connected<S::Input, S::Output>>,
}

impl<'a, C: Copies, S: Server + Drop> Live<'a, C, S> {
    /// Nothing is asked yet. The URL is what the server is asked for: by default the root that the first copy has.
    pub fn new(
        alloc: Global,
        copies: &'a C,
        server: S,
        url: Option<&'a [u8]>,
        one_by_one: bool,
    ) -> Live<'a, C, S>
        ensures line { result.line ≡ None }
        ensures url { result.url ≡ url.entry }
        ensures copies { result.copies ≡ copies.entry }
    {
        Live {
            alloc,
            copies,
            url,
            one_by_one,
            server,
            line: None,
        }
    }

    // How the client names itself, and what it asks for.
    fn speaker(&self, origin: &Origin) -> Result<Speaker, AllocError>
        ensures uuid { IfOk result (λ s. s.uuid ≡ origin.now.uuid) }
        ensures url { IfOk result (λ s. s.url ≡ unwrap_or (option_copied self.now.url) (server_url origin.now.url)) }
    {
        let url = match self.url {
            Some(url) => Text::from_slice(self.alloc, url)?,
            None => server_url(self.alloc, origin.url.as_slice())?,
        };
        Ok(Speaker {
            url,
            uuid: origin.uuid.clone()?,
            client: Text::from_str(self.alloc, "svnaudit")?,
        })
    }

    // A connection on which a copy is asked about first.
    fn connect(
        &mut self,
        origin: &Origin,
    ) -> Result<Connected<S::Input, S::Output>, LiveAnswerFault<S::Fault>>
        ensures line { IfOk result (λ at. IsNewLine (option_copied self.old.url) origin.now at) }
        ensures same { (self.new.copies ≡ self.old.copies) × (self.new.url ≡ self.old.url) }
    {
        let speaker = self.speaker(origin)?;
        let uuid = origin.uuid.clone()?;
        let (input, output) = match self.server.connect() {
            Ok(ends) => ends,
            Err(fault) => return Err(LiveAnswerFault::Connect(fault)),
        };
        let link = Link::new(self.alloc, speaker, self.one_by_one, input, output)?;
        Ok(Connected { link, uuid })
    }

    // The connection on which a copy is asked about.
    fn take_line(
        &mut self,
        origin: &Origin,
    ) -> Result<Connected<S::Input, S::Output>, LiveAnswerFault<S::Fault>>
        ensures line { IfOk result (λ at. IsConnected (option_copied self.old.url) self.old.line origin.now at) }
        ensures same { (self.new.copies ≡ self.old.copies) × (self.new.url ≡ self.old.url) }
    {
        match self.line.take() {
            Some(line) => Ok(line),
            None => self.connect(origin),
        }
    }

    // Asks about a copy.
    fn audit<L: LiveListener>(
        &mut self,
        read: DiskCopy,
        listener: &mut L,
    ) -> Result<OnDisk, LiveAnswerFault<S::Fault>>
        ensures asked { IfOk result (λ found. AsksAbout S.Input.remaining (option_copied self.old.url) read found self.old.line self.new.line) }
        ensures same { OnOk result ((self.new.copies ≡ self.old.copies) × (self.new.url ≡ self.old.url)) }
    {
        let DiskCopy {
            copy,
            origin,
            notes,
            left_out,
        } = read;
        let mut line = self.take_line(&origin)?;
        match line.link.untrue_paths(&copy, listener) {
            Ok(untrue) => {
                self.line = Some(line);
                Ok(OnDisk {
                    audited: Audited {
                        copy,
                        untrue,
                        left_out,
                    },
                    notes: Some(notes),
                    any_uuid: false,
                    untold_root: false,
                    entry: None,
                })
            }
            Err(fault) => Err(LiveAnswerFault::Server(fault)),
        }
    }

    fn read(&self, name: &str) -> Result<DiskCopy, CopyFault<C::Fault>>
        ensures copy { IfOk result (λ read. IsLiveCopy (C.opens self.now.copies.now) (C.stayed self.now.copies.now) (option_map (λ line. line.uuid) self.now.line) name.now read) }
        ensures fault { IfErr result (λ e. IsLiveCopyFault (C.opens self.now.copies.now) (C.stayed self.now.copies.now) name.now e) }
    {
        let uuid = match &self.line {
            Some(line) => Some(line.uuid.as_slice()),
            None => None,
        };
        read_live_copy(self.alloc, self.copies, uuid, name)
    }

    // Answers the question of one copy.
    fn check_one<O: Write, N: Notices<C::Fault>, L: LiveListener>(
        &mut self,
        name: &str,
        output: &mut O,
        notices: &mut N,
        listener: &mut L,
    ) -> Result<Verdict, LiveAnswerFault<S::Fault>>
        ensures same { OnOk result ((self.new.copies ≡ self.old.copies) × (self.new.url ≡ self.old.url)) }
        ensures answers { IfOk result (λ v. (a : Answer C.Fault) × IsLiveAnswer S.Input.remaining C.Fault (C.opens self.old.copies.now) (C.stayed self.old.copies.now) (option_copied self.old.url) name.now a self.old.line self.new.line × (v ≡ verdict_of a) × Appends (O.contents output.old) (O.contents output.new) (answer_text name.now a) × HearsAll N.hears (notices_of name.now a) notices.old notices.new) }
    {
        match self.read(name) {
            Ok(read) => {
                let found = self.audit(read, listener)?;
                hear_notes(name, found.notes, notices);
                match write_checked(name, &found, output) {
                    Ok(()) => Ok(Verdict::on(&found.audited.untrue)),
                    Err(_) => Err(LiveAnswerFault::Write),
                }
            }
            Err(fault) => {
                hear_fault(name, TellFault::Copy(fault), notices);
                Ok(Verdict::Refused)
            }
        }
    }

    /// Answers whether the copies that words name are true of what the server says: writes the lines of each that is audited, in the order of the words, and
    /// returns the worst of all verdicts. A copy that is refused, also for the repository that it is of, doesn't keep the others from their answer: why, and
    /// what was passed over of a copy, is heard in the order of the words. Connect, Server and Write end it, and what was written and heard of the copies before
    /// stays. After Server the connection is given up: the next copy that is asked about is the first of another one.
    pub fn check<O: Write, N: Notices<C::Fault>, L: LiveListener>(
        &mut self,
        names: &[&str],
        output: &mut O,
        notices: &mut N,
        listener: &mut L,
    ) -> Result<Verdict, LiveAnswerFault<S::Fault>>
        ensures answers { IfOk result (λ v. (text : List ℕ) × (heard : Heard C.Fault) × LiveChecks S.Input.remaining C.Fault (C.opens self.old.copies.now) (C.stayed self.old.copies.now) (option_copied self.old.url) (map (λ name. name.now) names.now) v text heard self.old.line self.new.line × Appends (O.contents output.old) (O.contents output.new) text × HearsAll N.hears heard notices.old notices.new) }
    {
        let mut verdict = Verdict::True;
        for name in names {
            let answer = self.check_one(name, output, notices, listener)?;
            verdict = verdict.worse(answer);
        }
        Ok(verdict)
    }
}
