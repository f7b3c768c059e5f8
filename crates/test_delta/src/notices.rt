//! A notice whose ends are on one thread.
use std::alloc::Global;
use std::sync::Wait;
use std::test::Fail;
use svn_link::{LinkFault, notice, settle_notice};

// What the watcher sees, and whether the teller has sent a number, before the number 5 is sent and after it; what is seen again; and what the
// joined ends report.
type Told = (
    (Option<u64>, bool),
    (Option<u64>, bool),
    Option<u64>,
    Option<u64>,
);

fn tell_five<R: Wait>(rt: &R, alloc: Global) -> Result<Told, LinkFault> {
    let (mut teller, mut watcher) = notice(alloc)?;
    let before = (watcher.seen(rt), teller.told());
    teller.refused(rt, 5);
    let after = (watcher.seen(rt), teller.told());
    let again = watcher.seen(rt);
    Ok((before, after, again, settle_notice(rt, teller, watcher)))
}

#[test]
fn a_number_is_told_and_seen(rt: HostRuntime) -> Result<(), Fail> {
    let told = tell_five(&rt, rt.alloc())?;
    assert_eq!(rt; told, ((None, false), (Some(5), true), Some(5), Some(5)));
    Ok(())
}

fn tell_nothing<R: Wait>(rt: &R, alloc: Global, shown: &mut String) -> Result<Option<u64>, Fail> {
    let (teller, watcher) = notice(alloc)?;
    write!(shown, "{teller:?}, {watcher:?}")?;
    Ok(settle_notice(rt, teller, watcher))
}

#[test]
fn nothing_told_is_nothing_seen(rt: HostRuntime) -> Result<(), Fail> {
    let mut shown = String::new(rt.alloc());
    let settled = tell_nothing(&rt, rt.alloc(), &mut shown)?;
    assert_eq!(rt; settled, None);
    assert_eq!(rt;
        shown.as_str(),
        "Teller { told: false, .. }, Watcher { .. }"
    );
    Ok(())
}
