//! Lists of tuples, and what gathers them.
ghost use Rattle.std.specs.Prelude.{◌≡◌, ◌<◌, ◌≤◌, length, Ok, IfOk, IfErr, OnOk};
ghost use Rattle.svn_ask.specs.Reading.{Gives, Fails, given};
ghost use Rattle.svn_ask.specs.Tuples.{after_list, begins, tuples};
ghost use Rattle.svn_ask.specs.declared.fault.Reason.TheVariants.{Malformed};

use crate::fault::{AskFault, Reason};
use std::alloc::Global;
use svn_wire::Token;

/// What gathers the tuples of a list, one after the other.
pub(crate) trait Tuples {
    ghost use Rattle.std.specs.Prelude.{◌≡◌, List, Result, Ok, IfErr, OnOk};
    ghost use Rattle.svn_wire.specs.declared.token.Token.{Token};
    ghost use Rattle.svn_ask.specs.declared.fault.Reason.{Reason};
    ghost use Rattle.svn_ask.specs.Reading.{Fails};

    ghost adds: { Self → List Token → Result Self Reason };

    /// Takes one more tuple, whose fields are at the front of these tokens.
    fn add(&mut self, alloc: Global, fields: &[Token]) -> Result<(), AskFault>
        ensures added { OnOk result (adds self.old fields.now ≡ Ok self.new) }
        ensures fault { IfErr result (λ e. Fails e (adds self.old fields.now)) };
}

// What is after the list that is open.
fn after_list(list: &[Token]) -> Result<&[Token], AskFault>
    ensures rest { Gives (λ rest. rest.now) result (given Malformed (after_list 0 list.now)) }
    ensures shorter { IfOk result (λ rest. length rest.now < length list.now) }
{
    let mut deep: usize = 0;
    let mut rest = list;
    'tokens: while let [token, after @ ..] = rest {
        match token {
            Token::Open => deep += 1,
            Token::Close => {
                if deep == 0 {
                    return Ok(after);
                }
                deep -= 1;
            }
            _ => {}
        }
        rest = after;
    }
    Err(AskFault::Refused(Reason::Malformed))
}

// Whether a tuple begins, and what is after its parenthesis; or the list ends.
fn begins(list: &[Token]) -> Result<(bool, &[Token]), AskFault>
    ensures after { Gives (λ x. (x.0, x.1.now)) result (begins list.now) }
    ensures shorter { IfOk result (λ x. length x.1.now < length list.now) }
{
    match list {
        [Token::Open, after @ ..] => Ok((true, after)),
        [Token::Close, after @ ..] => Ok((false, after)),
        _ => Err(AskFault::Refused(Reason::Malformed)),
    }
}

/// Gathers the tuples of the list that is open, and returns what is after the list.
#[tactic(auto, using(crate::proofs::TupleLemmas::list_ends, crate::proofs::TupleLemmas::one_tuple))]
pub(crate) fn gather<'a, G: Tuples>(
    alloc: Global,
    gathered: &mut G,
    list: &'a [Token],
) -> Result<&'a [Token], AskFault>
    ensures rest { IfOk result (λ rest. tuples G.adds 0 gathered.old list.now ≡ Ok (gathered.new, rest.now)) }
    ensures fault { IfErr result (λ e. Fails e (tuples G.adds 0 gathered.old list.now)) }
{
    let mut rest = list;
    'tuples: loop {
        let (is_open, after) = begins(rest)?;
        if !is_open {
            return Ok(after);
        }
        gathered.add(alloc, after)?;
        rest = after_list(after)?;
    }
}
