//! The properties in an answer.
ghost use Rattle.std.specs.Prelude.{◌≡◌, Ok, IfErr, OnOk};
ghost use Rattle.svn_ask.specs.Reading.{Gives, Fails};
ghost use Rattle.svn_ask.specs.Answers.{is_servers, prop_name, prop_set};

use crate::fault::{AskFault, Reason};
use crate::tuples::Tuples;
use std::alloc::Global;
use svn_types::{PathFault, PropName, Props, Text};
use svn_wire::Token;

// Whether a property is the server's own, which no node has.
fn is_servers(name: &[u8]) -> bool
    ensures { result ≡ is_servers name.now }
{
    name.starts_with(b"svn:entry:") || name.starts_with(b"svn:wc:")
}

fn read_prop_name(alloc: Global, name: &[u8]) -> Result<PropName, AskFault>
    ensures { Gives (λ n. n) result (prop_name name.now) }
{
    match PropName::from_bytes(alloc, name) {
        Ok(name) => Ok(name),
        Err(PathFault::Memory) => Err(AskFault::Memory),
        Err(fault) => Err(AskFault::Refused(Reason::BadPropName(fault))),
    }
}

fn set_prop(alloc: Global, props: &mut Props, name: &[u8], value: &[u8]) -> Result<(), AskFault>
    ensures set { OnOk result (prop_set props.old name.now value.now ≡ Ok props.new) }
    ensures fault { IfErr result (λ e. Fails e (prop_set props.old name.now value.now)) }
{
    if is_servers(name) {
        return Ok(());
    }
    let name = read_prop_name(alloc, name)?;
    if props.get(&name).is_some() {
        return Err(AskFault::Refused(Reason::PropTwice));
    }
    let value = Text::from_slice(alloc, value)?;
    props.insert(name, value)?;
    Ok(())
}

impl Tuples for Props {
    ghost use Rattle.svn_ask.specs.Answers.{with_prop};

    ghost adds = { with_prop };

    fn add(&mut self, alloc: Global, fields: &[Token]) -> Result<(), AskFault> {
        match fields {
            [Token::Text(name), Token::Text(value), ..] => {
                set_prop(alloc, self, name.as_slice(), value.as_slice())
            }
            _ => Err(AskFault::Refused(Reason::Malformed)),
        }
    }
}
