//! An editor that writes the calls that it is given.
ghost use Rattle.std.specs.Prelude.{◌≡◌, ◌⊎◌, ◌++◌, ℕ, List, None, IfOk, IfErr, OnOk};
ghost use Rattle.std.specs.Io.KnownBytes.{Appends};
ghost use Rattle.svn_editor.specs.declared.call.Call.TheVariants.{ApplyText};
ghost use Rattle.svn_wire_calls.specs.Calls.{text_commands};
ghost use Rattle.svn_wire_calls.specs.Entries.{IsSaid, IsSaidAfter, IsWrittenAs, IsWrittenCall};
ghost use Rattle.svn_wire_calls.specs.Laws.{Writes};
ghost use Rattle.svn_wire_calls.specs.Shown.{IsPlain, IsShown, IsShownSum};

use crate::calls::{push_call, push_text_begin, push_text_end};
use crate::entered::{Teller, push_entered};
use crate::opened::OpenedTexts;
use crate::pieces::Form;
use crate::sending::{send_text, write_out};
use crate::texts::{SendFault, TextMap};
use std::alloc::{AllocError, Global};
use std::io::{Read, Seek, Write};
use svn_editor::{Call, EditFault, Editor, Token};
use svn_types::{Digest, RelPath, Text};

/// An editor that writes each call when it is made, and after one that opens or adds a node what is said of that. A text is read off a file, piece by piece.
/// It refuses a call with Memory, of which nothing is written then; or with Stopped, and each further call, where the writer or the file of the texts fails, a
/// text isn't known or has become another, or memory runs out within a text ([`take_failure`](Self::take_failure)): what was written is a front of the calls.
#[derive(Drop)]
pub struct WireEditor<'a, W, F, T> {
    alloc: Global,
    writer: &'a mut W,
    texts: &'a mut F,
    opened: &'a mut OpenedTexts,
    teller: T,
    // why a call failed
    failed: Option<SendFault>,
}

impl<'a, W: Write, F: Read + Seek, T: Teller + TextMap> WireEditor<'a, W, F, T> {
    /// An editor that has written nothing. What it learns of the files that it opens is kept in `opened`. It takes no memory.
    pub fn new(
        alloc: Global,
        writer: &'a mut W,
        texts: &'a mut F,
        opened: &'a mut OpenedTexts,
        teller: T,
    ) -> WireEditor<'a, W, F, T>
        ensures writer { result.writer.now ≡ writer.old }
        ensures same_writer { result.writer.ghost_name ≡ writer.entry.ghost_name }
        ensures teller { result.teller ≡ teller }
        ensures failed { result.failed ≡ None }
    {
        WireEditor {
            alloc,
            writer,
            texts,
            opened,
            teller,
            failed: None,
        }
    }

    /// Why a call failed, if one has. It is returned once; then the editor writes again.
    pub fn take_failure(&mut self) -> Option<SendFault>
        ensures failed { result ≡ self.old.failed }
        ensures written { self.new.writer.now ≡ self.old.writer.now }
        ensures same_writer { self.new.writer.ghost_name ≡ self.old.writer.ghost_name }
    {
        self.failed.take()
    }

    // Writes what is said of a node that was opened.
    fn push_told(
        &self,
        out: &mut Vec<u8>,
        path: &RelPath,
        change: &[u8],
        token: Token,
    ) -> Result<(), AllocError>
        ensures { OnOk result ((said : List ℕ) × IsSaid (T.tells self.now.teller) change.now token path.now said × (out.new.items ≡ out.old.items ++ said)) }
    {
        match self.teller.tell(self.alloc, path)? {
            Some(entered) => push_entered(out, change, token, &entered),
            None => Ok(()),
        }
    }

    // Writes what is said after a call.
    fn push_after(&self, out: &mut Vec<u8>, call: &Call) -> Result<(), AllocError>
        ensures { OnOk result ((said : List ℕ) × IsSaidAfter (T.tells self.now.teller) call.now said × (out.new.items ≡ out.old.items ++ said)) }
    {
        match call {
            Call::OpenRoot { token, .. } => {
                let root = RelPath::root(self.alloc);
                self.push_told(out, &root, b"change-dir-prop", *token)
            }
            Call::AddDirectory { path, token, .. } | Call::OpenDirectory { path, token, .. } => {
                self.push_told(out, path, b"change-dir-prop", *token)
            }
            Call::AddFile { path, token, .. } | Call::OpenFile { path, token, .. } => {
                self.push_told(out, path, b"change-file-prop", *token)
            }
            _ => Ok(()),
        }
    }

    // A call and what is said after it.
    fn bytes_of(&self, call: &Call) -> Result<Vec<u8>, AllocError>
        ensures { IfOk result (λ bytes. IsWrittenAs (T.tells self.now.teller) call.now bytes.items) }
    {
        let mut bytes = Vec::new(self.alloc);
        push_call(&mut bytes, call)?;
        self.push_after(&mut bytes, call)?;
        Ok(bytes)
    }

    // The checksum that is known of the text for which one stands that has this one.
    fn known_sum(&self, sum: Digest) -> Result<Digest, SendFault>
        ensures { IfOk result (λ known. T.sums self.now.teller sum known) }
    {
        if self.teller.is_whole() {
            return Ok(sum);
        }
        let Some(held) = self.opened.find(sum) else {
            return Err(SendFault::Unknown);
        };
        if held.checksum() != sum {
            return Err(SendFault::Unknown);
        }
        match self.teller.known_sum(self.alloc, held)? {
            Some(known) => Ok(known),
            None => Err(SendFault::Unknown),
        }
    }

    // The same, where there is a checksum.
    fn shown_sum(&self, sum: Option<Digest>) -> Result<Option<Digest>, SendFault>
        ensures { IfOk result (λ shown. IsShownSum (T.stands_for self.now.teller) (T.sums self.now.teller) sum shown) }
    {
        match sum {
            Some(sum) => Ok(Some(self.known_sum(sum)?)),
            None => Ok(None),
        }
    }

    // A call without a text as it is written.
    fn shown(&self, call: Call) -> Result<Call, SendFault>
        requires { IsPlain call }
        ensures { IfOk result (λ shown. IsShown (T.stands_for self.now.teller) (T.sums self.now.teller) call shown) }
    {
        match call {
            Call::CloseFile { token, text_md5 } => Ok(Call::CloseFile {
                token,
                text_md5: self.shown_sum(text_md5)?,
            }),
            call => Ok(call),
        }
    }

    // The bytes of a call without a text; nothing is written yet.
    fn prepared(&mut self, call: Call) -> Result<Vec<u8>, SendFault>
        requires { IsPlain call }
        ensures bytes { IfOk result (λ bytes. IsWrittenCall (T.tells self.old.teller) (T.stands_for self.old.teller) (T.sums self.old.teller) call bytes.items) }
        ensures written { self.new.writer.now ≡ self.old.writer.now }
        ensures same_writer { self.new.writer.ghost_name ≡ self.old.writer.ghost_name }
        ensures teller { self.new.teller ≡ self.old.teller }
    {
        self.opened.learn(self.alloc, &self.teller, &call)?;
        let shown = self.shown(call)?;
        Ok(self.bytes_of(&shown)?)
    }

    // Refuses a call of which nothing was written.
    fn refuse(&mut self, fault: SendFault) -> EditFault
        ensures fault { (result ≡ EditFault.Stopped) ⊎ (result ≡ EditFault.Memory) }
        ensures written { self.new.writer.now ≡ self.old.writer.now }
        ensures same_writer { self.new.writer.ghost_name ≡ self.old.writer.ghost_name }
        ensures teller { self.new.teller ≡ self.old.teller }
    {
        match fault {
            SendFault::Memory => EditFault::Memory,
            fault => self.fail(fault),
        }
    }

    // Refuses each further call.
    fn fail(&mut self, fault: SendFault) -> EditFault
        ensures fault { result ≡ EditFault.Stopped }
        ensures written { self.new.writer.now ≡ self.old.writer.now }
        ensures same_writer { self.new.writer.ghost_name ≡ self.old.writer.ghost_name }
        ensures teller { self.new.teller ≡ self.old.teller }
    {
        self.failed = Some(fault);
        EditFault::Stopped
    }

    // Writes the bytes of a call.
    fn write(&mut self, bytes: &[u8]) -> Result<(), EditFault>
        ensures written { OnOk result (Appends (W.contents self.old.writer.now) (W.contents self.new.writer.now) bytes.now) }
        ensures fault { IfErr result (λ e. e ≡ EditFault.Stopped) }
        ensures same_writer { self.new.writer.ghost_name ≡ self.old.writer.ghost_name }
        ensures teller { self.new.teller ≡ self.old.teller }
    {
        match write_out(self.writer, bytes) {
            Ok(()) => Ok(()),
            Err(fault) => Err(self.fail(fault)),
        }
    }

    // A call without a text.
    fn call_plain(&mut self, call: Call) -> Result<(), EditFault>
        requires { IsPlain call }
        ensures { Writes (λ e. e.writer.ghost_name) (λ e. W.contents e.writer.now) (λ e. e.teller) T.tells T.stands_for T.sums self.old call result self.new }
    {
        match self.prepared(call) {
            Ok(bytes) => self.write(&bytes),
            Err(fault) => Err(self.refuse(fault)),
        }
    }

    // The commands of a text.
    fn send(&mut self, token: Token, base: Option<Digest>, held: &Text) -> Result<(), SendFault>
        ensures written { OnOk result ((text : List ℕ) × T.stands_for self.old.teller held.now text × Appends (W.contents self.old.writer.now) (W.contents self.new.writer.now) (text_commands token base text)) }
        ensures same_writer { self.new.writer.ghost_name ≡ self.old.writer.ghost_name }
        ensures teller { self.new.teller ≡ self.old.teller }
    {
        let mut first = Vec::new(self.alloc);
        push_text_begin(&mut first, token, base)?;
        write_out(self.writer, &first)?;
        let form = Form::Chunks(token);
        send_text(
            self.alloc,
            form,
            &self.teller,
            held,
            self.texts,
            self.writer,
        )?;
        let mut last = Vec::new(self.alloc);
        push_text_end(&mut last, token)?;
        write_out(self.writer, &last)
    }

    // A call with a text.
    fn call_text(
        &mut self,
        token: Token,
        base: Option<Digest>,
        held: &Text,
    ) -> Result<(), EditFault>
        ensures { Writes (λ e. e.writer.ghost_name) (λ e. W.contents e.writer.now) (λ e. e.teller) T.tells T.stands_for T.sums self.old (ApplyText token base held.now) result self.new }
    {
        let base = match self.shown_sum(base) {
            Ok(base) => base,
            Err(fault) => return Err(self.refuse(fault)),
        };
        match self.send(token, base, held) {
            Ok(()) => Ok(()),
            Err(fault) => Err(self.fail(fault)),
        }
    }
}

impl<W: Write, F: Read + Seek, T: Teller + TextMap> Editor for WireEditor<'_, W, F, T> {
    ghost answers = { Writes (λ e. e.writer.ghost_name) (λ e. W.contents e.writer.now) (λ e. e.teller) T.tells T.stands_for T.sums };

    fn call(&mut self, call: Call) -> Result<(), EditFault> {
        if self.failed.is_some() {
            return Err(EditFault::Stopped);
        }
        match call {
            Call::ApplyText {
                token,
                base_md5,
                text,
            } => self.call_text(token, base_md5, &text),
            call => self.call_plain(call),
        }
    }
}
