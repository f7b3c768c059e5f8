// Calls that are known to be in order and not to be refused: a `Pending` applies them without testing either.
use crate::calls::call;
use crate::nodes::nodes;
use crate::printed::write_nodes;
use std::alloc::Global;
use std::test::Fail;
use svn_edit::Pending;
use svn_editor::Mode;
use svn_nodes::{Nodes, gather};
use svn_types::RelPath;
use svn_wc::WorkingCopy;

fn carry_all(alloc: Global, copy: &mut Nodes, mode: &Mode, calls: &str) -> Result<(), Fail> {
    let mut pending = Pending::new(alloc)?;
    for step in calls.split("; ") {
        pending.carry(mode, copy, &call(alloc, step)?)?;
    }
    Ok(())
}

// What calls make of these nodes, as a script prints it.
fn carried(alloc: Global, before: &str, mode: &Mode, calls: &str) -> Result<String, Fail> {
    let mut copy = gather::map_of(alloc, nodes(alloc, before)?)?;
    carry_all(alloc, &mut copy, mode, calls)?;
    let copy = WorkingCopy::from_nodes(alloc, copy.into_iter().collect(alloc)?)?;
    let mut out = String::new(alloc);
    write_nodes(alloc, &mut out, &copy)?;
    Ok(out)
}

#[test]
fn carries_out_an_update(rt: HostRuntime) -> Result<(), Fail> {
    const BEFORE: &str = ". dir 1 .; d dir 1 d; e dir 1 e; f file 1 f a";
    const CALLS: &str =
        "set_target_revision 2; open_root 1 #0; delete_entry e 1 #0; open_directory d #0 1 #1; add_file d/g #1 #2; apply_text #2 - abc; close_file #2 B; close_directory #1; open_file f #0 1 #3; apply_text #3 A abc; close_file #3 B; close_directory #0; close_edit";
    let out = carried(rt.alloc(), BEFORE, &Mode::Update, CALLS)?;
    assert_eq!(rt;
        out.as_str(),
        ". dir 2 .; d dir 2 d; d/g file 2 d/g abc; f file 2 f abc; "
    );
    Ok(())
}

// The texts come after all directories.
#[test]
fn carries_out_a_switch(rt: HostRuntime) -> Result<(), Fail> {
    const BEFORE: &str = ". dir 1 .; f file 1 f a";
    const CALLS: &str =
        "set_target_revision 2; open_root 1 #0; open_file f #0 1 #1; add_file g #0 #2; close_directory #0; apply_text #1 - abc; close_file #1 -; apply_text #2 - a; close_file #2 -; close_edit";
    let to = Mode::SwitchTo(RelPath::parse(rt.alloc(), "d")?);
    let out = carried(rt.alloc(), BEFORE, &to, CALLS)?;
    assert_eq!(rt;
        out.as_str(),
        ". dir 2 d; f file 2 d/f abc; g file 2 d/g a; "
    );
    Ok(())
}

// What was done before stays, and no node changes.
#[test]
fn carries_out_what_is_given_up(rt: HostRuntime) -> Result<(), Fail> {
    const BEFORE: &str = ". dir 1 .; f file 1 f a";
    const CALLS: &str =
        "set_target_revision 2; open_root 1 #0; open_file f #0 1 #1; apply_text #1 A abc; abort_edit";
    let out = carried(rt.alloc(), BEFORE, &Mode::Update, CALLS)?;
    assert_eq!(rt; out.as_str(), ". dir 2 . incomplete; f file 1 f a; ");
    Ok(())
}
