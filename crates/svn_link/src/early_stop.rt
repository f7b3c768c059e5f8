//! The two ends of a new notice, and how they are joined again.
ghost use Rattle.std.specs.Prelude.{◌≡◌, None, IfOk, IfErr};
ghost use Rattle.svn_link.specs.Notice.{IsNoneOrSame};

use crate::fault::LinkFault;
use crate::teller::Teller;
use crate::watcher::Watcher;
use crate::word::{Agrees, Cell, Moved, Roles, number_in};
use std::alloc::Global;
use std::sync::{Arc, Wait};

/// The two ends of a new notice; nothing was reported yet.
///
/// Its only fault is `Memory`, where an allocation failed. All memory that the notice ever takes is taken here.
pub fn notice(alloc: Global) -> Result<(Teller, Watcher), LinkFault>
    ensures ends { IfOk result (λ e. (e.0.number ≡ None) × (e.1.number ≡ None) × (e.1.notice ≡ e.0.notice)) }
    ensures memory { IfErr result (λ f. f ≡ LinkFault.Memory) }
{
    let (cell, mut tells) = Cell::ruled(alloc, [0])?;
    let sees = cell.split_pass::<Roles>(&mut tells);
    let Ok(one) = Arc::new(alloc, cell) else {
        return Err(LinkFault::Memory);
    };
    let other = Arc::try_clone(&one)?;
    let teller = Teller {
        cell: one,
        pass: tells,
        told: false,
    };
    let watcher = Watcher {
        cell: other,
        pass: sees,
    };
    Ok((teller, watcher))
}

/// Joins the two ends of one notice. It returns the number that was reported, and each number that was seen is that one.
///
/// It may wait, and takes no memory.
pub fn settle_notice<R: Wait>(rt: &R, teller: Teller, watcher: Watcher) -> Option<u64>
    requires { watcher.notice ≡ teller.notice }
    ensures told { result ≡ teller.number }
    ensures seen { IsNoneOrSame watcher.number result }
{
    let Teller {
        cell,
        mut pass,
        told: _,
    } = teller;
    let Watcher {
        cell: _,
        pass: mut sees,
    } = watcher;
    let seen = cell.split_pass::<Moved>(&mut sees);
    cell.join_pass::<Roles>(&mut pass, seen);
    number_in(cell.load_as::<Agrees, R>(rt, &mut pass)[0])
}
