//! The names in an answer.
ghost use Rattle.std.specs.Prelude.{◌≡◌, [], Ok, IfOk, IfErr, OnOk};
ghost use Rattle.svn_ask.specs.Reading.{Gives, Fails};
ghost use Rattle.svn_types.specs.NameFaults.{name_fault};
ghost use Rattle.svn_ask.specs.Answers.{unless_fault, node_name, name_put};
ghost use Rattle.svn_ask.specs.declared.fault.Reason.TheVariants.{BadName};

use crate::fault::{AskFault, Reason};
use crate::tuples::Tuples;
use std::alloc::{AllocError, Global};
use std::collections::BTreeSet;
use std::marker::Model;
use std::str;
use svn_types::{Name, PathFault};
use svn_wire::Token;

/// The names of a directory's entries. A contract sees them in byte order.
#[derive(Drop)]
pub(crate) struct Names {
    names: BTreeSet<Name>,
}

impl Model for Names {
    ghost use Rattle.std.specs.Prelude.{ℕ, List};

    ghost Value = { List (List ℕ) };

    ghost view = { λ n. n.names.keys };
}

fn read_text(alloc: Global, name: &str) -> Result<Name, AskFault>
    ensures { Gives (λ n. n) result (unless_fault BadName (name_fault name.now) name.now) }
{
    match Name::parse(alloc, name) {
        Ok(name) => Ok(name),
        Err(PathFault::Memory) => Err(AskFault::Memory),
        Err(fault) => Err(AskFault::Refused(Reason::BadName(fault))),
    }
}

fn read_name(alloc: Global, name: &[u8]) -> Result<Name, AskFault>
    ensures { Gives (λ n. n) result (node_name name.now) }
{
    match str::from_utf8(name) {
        Ok(text) => read_text(alloc, text),
        Err(_) => Err(AskFault::Refused(Reason::NotUtf8)),
    }
}

impl Names {
    /// No names. It takes no memory.
    pub(crate) fn new(alloc: Global) -> Names
        ensures { result ≡ [] }
    {
        Names {
            names: BTreeSet::new(alloc),
        }
    }

    fn put(&mut self, name: Name) -> Result<(), AskFault>
        ensures put { OnOk result (name_put self.old name ≡ Ok self.new) }
        ensures fault { IfErr result (λ e. Fails e (name_put self.old name)) }
    {
        if self.names.insert(name)? {
            Ok(())
        } else {
            Err(AskFault::Refused(Reason::NameTwice))
        }
    }

    /// The names in byte order.
    pub(crate) fn into_vec(self, alloc: Global) -> Result<Vec<Name>, AllocError>
        ensures { IfOk result (λ v. v.items ≡ self) }
    {
        let Names { names } = self;
        names.into_iter().collect(alloc)
    }
}

impl Tuples for Names {
    ghost use Rattle.svn_ask.specs.Answers.{with_name};

    ghost adds = { with_name };

    fn add(&mut self, alloc: Global, fields: &[Token]) -> Result<(), AskFault> {
        match fields {
            [Token::Text(name), ..] => self.put(read_name(alloc, name.as_slice())?),
            _ => Err(AskFault::Refused(Reason::Malformed)),
        }
    }
}
