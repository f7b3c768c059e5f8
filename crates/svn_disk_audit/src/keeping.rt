//! The nodes of a base tree, each text read and kept whole or as its stand-in.
ghost use Rattle.std.specs.Prelude.{◌≡◌, ℕ, List, Option, IfOk, IfErr, IfSome, OnOk, IsTrue};
ghost use Rattle.svn_dump.specs.declared.sections.Texts.TheVariants.{Sha1};
ghost use Rattle.svn_disk_audit.specs.Keeping.{HasRead};
ghost use Rattle.svn_disk_audit.specs.Pristine.{Store, HasText, HasKept, IsKeptAs, AreKeptAs, IsTextFault, IsFileFault, IsNodeFault, IsKeepFault};

use crate::examiner::Examiner;
use crate::fault::{AuditFault, PristineRefusal};
use crate::pristine::{TextFault, TextReader};
use std::alloc::{AllocError, Global};
use std::collections::{BTreeMap, BTreeSet};
use svn_dump::Texts;
use svn_model::BaseNode;
use svn_types::{RelPath, Text};

// What reads texts, and the names of those that were read: where texts are kept as these names, the names alone, and where they are kept as other
// words, each with its word.
#[derive(Drop)]
struct Keeper {
    alloc: Global,
    reader: TextReader,
    names: BTreeSet<Vec<u8>>,
    words: BTreeMap<Vec<u8>, Text>,
}

// Why a text isn't kept.
fn audit_fault<F>(
    path: &RelPath,
    name: &Text,
    fault: TextFault,
) -> Result<AuditFault<F>, AllocError>
    ensures { IfOk result (λ e. (known : Option (List ℕ)) → IsTextFault known name.now fault → IsFileFault known path.now name.now e) }
{
    match fault {
        TextFault::Memory => Ok(AuditFault::Memory),
        TextFault::Refused(fault) => Ok(AuditFault::Pristine(PristineRefusal {
            path: path.clone()?,
            stand_in: name.clone()?,
            fault,
        })),
    }
}

impl Keeper {
    fn new(alloc: Global, texts: Texts) -> Result<Keeper, AllocError>
        ensures texts { IfOk result (λ keeper. keeper.reader.texts ≡ texts) }
        ensures read { IfOk result (λ keeper. (store : Store) → HasRead store keeper) }
    {
        Ok(Keeper {
            alloc,
            reader: TextReader::new(alloc, texts)?,
            names: BTreeSet::new(alloc),
            words: BTreeMap::new(alloc),
        })
    }

    // Whether the text was read before, and is kept as this stand-in.
    fn has(&self, name: &Text) -> bool
        ensures texts { IsTrue result → self.now.reader.texts ≡ Sha1 }
        ensures text { IsTrue result → (store : Store) → HasRead store self.now → HasText store name.now }
    {
        self.reader.texts == Texts::Sha1 && self.names.contains(name.as_slice())
    }

    // The word that the text is kept as, if it was read before and is kept as another word than its name.
    fn word(&self, name: &Text) -> Result<Option<Text>, AllocError>
        ensures { IfOk result (λ word. (store : Store) → HasRead store self.now → IfSome word (λ t. HasKept store self.now.reader.texts name.now t)) }
    {
        match self.words.get(name.as_slice()) {
            Some(word) => Ok(Some(word.clone()?)),
            None => Ok(None),
        }
    }

    // The text of this name was read, and is kept as this word.
    fn add(&mut self, name: &Text, word: &Text) -> Result<(), AllocError>
        ensures texts { self.new.reader.texts ≡ self.old.reader.texts }
        ensures read { OnOk result ((store : Store) → HasRead store self.old → HasKept store self.old.reader.texts name.now word.now → HasRead store self.new) }
    {
        match self.reader.texts {
            Texts::Whole => {}
            Texts::Sha1 => self.add_name(name)?,
            Texts::Md5 => self.add_word(name, word)?,
        }
        Ok(())
    }

    // The text of this name was read.
    fn add_name(&mut self, name: &Text) -> Result<(), AllocError>
        ensures reader { self.new.reader ≡ self.old.reader }
        ensures read { OnOk result ((store : Store) → HasRead store self.old → HasText store name.now → HasRead store self.new) }
    {
        self.names.insert(name.to_vec(self.alloc)?)?;
        Ok(())
    }

    // The text of this name is kept as this word.
    fn add_word(&mut self, name: &Text, word: &Text) -> Result<(), AllocError>
        ensures reader { self.new.reader ≡ self.old.reader }
        ensures read { OnOk result ((store : Store) → HasRead store self.old → HasKept store self.old.reader.texts name.now word.now → HasRead store self.new) }
    {
        self.words.insert(name.to_vec(self.alloc)?, word.clone()?)?;
        Ok(())
    }

    // What the pristine text of a file is kept as.
    fn keep_text<E: Examiner>(
        &mut self,
        examiner: &mut E,
        path: &RelPath,
        name: Text,
    ) -> Result<Text, AuditFault<E::Fault>>
        requires { HasRead (E.text_at examiner.old) self.old }
        ensures text { IfOk result (λ t. HasKept (E.text_at examiner.old) self.old.reader.texts name t) }
        ensures read { OnOk result (HasRead (E.text_at examiner.old) self.new) }
        ensures texts { self.new.reader.texts ≡ self.old.reader.texts }
        ensures same { E.text_at examiner.new ≡ E.text_at examiner.old }
        ensures fault { IfErr result (IsFileFault (E.text_at examiner.old name) path.now name) }
    {
        if self.has(&name) {
            return Ok(name);
        }
        if let Some(word) = self.word(&name)? {
            return Ok(word);
        }
        let mut reader = match examiner.pristine(path, &name) {
            Ok(reader) => reader,
            Err(fault) => return Err(AuditFault::Examiner(fault)),
        };
        match self.reader.read(&mut reader, &name) {
            Ok(text) => {
                self.add(&name, &text)?;
                Ok(text)
            }
            Err(fault) => Err(audit_fault(path, &name, fault)?),
        }
    }

    // A node, its text as it is kept.
    fn keep_node<E: Examiner>(
        &mut self,
        examiner: &mut E,
        path: &RelPath,
        node: BaseNode,
    ) -> Result<BaseNode, AuditFault<E::Fault>>
        requires { HasRead (E.text_at examiner.old) self.old }
        ensures node { IfOk result (λ n. IsKeptAs self.old.reader.texts (E.text_at examiner.old) node n) }
        ensures read { OnOk result (HasRead (E.text_at examiner.old) self.new) }
        ensures texts { self.new.reader.texts ≡ self.old.reader.texts }
        ensures same { E.text_at examiner.new ≡ E.text_at examiner.old }
        ensures fault { IfErr result (IsNodeFault (E.text_at examiner.old) path.now node) }
    {
        match node {
            BaseNode::File {
                rev,
                repos_path,
                text,
                props,
            } => {
                let text = self.keep_text(examiner, path, text)?;
                Ok(BaseNode::File {
                    rev,
                    repos_path,
                    text,
                    props,
                })
            }
            node => Ok(node),
        }
    }
}

/// The nodes, each text read and kept as asked.
pub(crate) fn keep_texts<E: Examiner>(
    alloc: Global,
    texts: Texts,
    examiner: &mut E,
    nodes: Vec<(RelPath, BaseNode)>,
) -> Result<Vec<(RelPath, BaseNode)>, AuditFault<E::Fault>>
    ensures kept { IfOk result (λ kept_nodes. AreKeptAs texts (E.text_at examiner.old) nodes.items kept_nodes.items) }
    ensures fault { IfErr result (IsKeepFault (E.text_at examiner.old) nodes.items) }
{
    let mut keeper = Keeper::new(alloc, texts)?;
    let mut kept = Vec::new(alloc);
    for (path, node) in nodes {
        let node = keeper.keep_node(examiner, &path, node)?;
        kept.push((path, node))?;
    }
    Ok(kept)
}
