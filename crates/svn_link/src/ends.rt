//! The two ends of a new link.
ghost use Rattle.std.specs.Prelude.{◌≡◌, [], IfOk, IfErr};
ghost use Rattle.svn_link.specs.Ends.{IsCapacity};

use crate::fault::LinkFault;
use crate::inbox::Inbox;
use crate::outbox::Outbox;
use crate::queue::{Hand, InOrder, Roles};
use crossbeam_channel::bounded_with;
use std::alloc::Global;
use svn_editor::Call;
use svn_types::MAX_CAPACITY;

/// The two ends of a new link, whose queue holds up to `capacity` calls.
///
/// Its faults are `Capacity`, where `capacity` isn't from 1 to 4,096, and else `Memory`, where an allocation failed. All
/// memory that the link ever takes is taken here.
pub fn link(alloc: Global, capacity: usize) -> Result<(Outbox, Inbox), LinkFault>
    ensures capacity { ¬ IsCapacity capacity → result ≡ Err LinkFault.Capacity }
    ensures memory { IsCapacity capacity → IfErr result (λ f. f ≡ LinkFault.Memory) }
    ensures ends { IfOk result (λ e. (e.0.calls ≡ []) × (e.1.calls ≡ []) × (e.1.link ≡ e.0.link)) }
{
    if capacity < 1 || capacity > MAX_CAPACITY {
        return Err(LinkFault::Capacity);
    }
    let (sender, receiver, mut sends) = bounded_with::<Call, Hand, InOrder, Global>(
        alloc, capacity,
    )?;
    let takes = sender.another::<Roles>(&mut sends);
    let outbox = Outbox {
        sender,
        pass: sends,
        count: 0,
        over: false,
    };
    let inbox = Inbox {
        receiver,
        pass: takes,
        count: 0,
        over: false,
    };
    Ok((outbox, inbox))
}
