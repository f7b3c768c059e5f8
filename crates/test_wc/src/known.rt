// What a copy knows of itself changes no report, and nothing that is printed of it.
use std::alloc::Global;
use std::process::Abort;
use std::test::Fail;
use svn_editor::{Call, Editor, Token};
use svn_model::BaseNode;
use svn_repo::{Change, Repo};
use svn_types::{Props, RelPath, Rev, Text};
use svn_wc::{Applier, WorkingCopy};

fn put(alloc: Global, path: &str, text: &str) -> Result<Change, Fail> {
    let path = RelPath::parse(alloc, path)?;
    let text = Text::new(Vec::from_slice(alloc, text.as_bytes())?);
    Ok(Change::PutFile { path, text })
}

fn commit(alloc: Global, repo: &mut Repo, change: Change) -> Result<(), Fail> {
    let mut changes = Vec::new(alloc);
    changes.push(change)?;
    repo.commit(&changes)?;
    Ok(())
}

// `f` with the text `a` in revision 1, and with `abc` in revision 2.
fn two_revisions(alloc: Global) -> Result<Repo, Fail> {
    let mut repo = Repo::new(alloc)?;
    commit(alloc, &mut repo, put(alloc, "f", "a")?)?;
    commit(alloc, &mut repo, put(alloc, "f", "abc")?)?;
    Ok(repo)
}

fn directory(alloc: Global, rev: Rev) -> Result<BaseNode, Fail> {
    Ok(BaseNode::Dir {
        rev,
        repos_path: RelPath::root(alloc),
        complete: true,
        props: Props::new(alloc),
    })
}

fn file(alloc: Global, rev: Rev, repos_path: &str) -> Result<BaseNode, Fail> {
    Ok(BaseNode::File {
        rev,
        repos_path: RelPath::parse(alloc, repos_path)?,
        text: Text::new(Vec::new(alloc)),
        props: Props::new(alloc),
    })
}

// How a copy was made: of revision 2, with the file of revision 1.
#[derive(Clone, Copy)]
enum Made {
    ByPlace,
    ByList,
    WithASwitch,
}

// Places a path of revision 1.
fn place(alloc: Global, repo: &Repo, copy: &mut WorkingCopy, path: &str) -> Result<(), Fail> {
    let path = RelPath::parse(alloc, path)?;
    Ok(copy.place(repo, &path, Rev(1))?)
}

// Switches a path to one of revision 1.
fn switch(
    alloc: Global,
    repo: &Repo,
    copy: &mut WorkingCopy,
    at: &str,
    from: &RelPath,
) -> Result<(), Fail> {
    let at = RelPath::parse(alloc, at)?;
    Ok(copy.switch(repo, &at, from, Rev(1))?)
}

fn placed(alloc: Global, repo: &Repo) -> Result<WorkingCopy, Fail> {
    let mut copy = WorkingCopy::checkout(alloc, repo, Rev(2))?;
    place(alloc, repo, &mut copy, "f")?;
    Ok(copy)
}

fn listed(alloc: Global) -> Result<WorkingCopy, Fail> {
    let mut nodes = Vec::new(alloc);
    nodes.push((RelPath::root(alloc), directory(alloc, Rev(2))?))?;
    nodes.push((RelPath::parse(alloc, "f")?, file(alloc, Rev(1), "f")?))?;
    Ok(WorkingCopy::from_nodes(alloc, nodes)?)
}

fn switched(alloc: Global, repo: &Repo) -> Result<WorkingCopy, Fail> {
    let mut copy = placed(alloc, repo)?;
    switch(alloc, repo, &mut copy, "g", &RelPath::parse(alloc, "f")?)?;
    Ok(copy)
}

fn make(alloc: Global, repo: &Repo, made: Made) -> Result<WorkingCopy, Fail> {
    match made {
        Made::ByPlace => placed(alloc, repo),
        Made::ByList => listed(alloc),
        Made::WithASwitch => switched(alloc, repo),
    }
}

// An update to revision 2 that has nothing to send.
fn update(alloc: Global, copy: &mut WorkingCopy) -> Result<(), Fail> {
    let mut applier = Applier::new(alloc, copy)?;
    let token = Token(0);
    applier.call(Call::SetTargetRevision { rev: Rev(2) })?;
    applier.call(Call::OpenRoot {
        base: Rev(2),
        token,
    })?;
    applier.call(Call::CloseDirectory { token })?;
    applier.call(Call::CloseEdit)?;
    Ok(())
}

fn write_report(alloc: Global, copy: &mut WorkingCopy, out: &mut String) -> Result<(), Fail> {
    let report = copy.crawl_and_learn(alloc)?;
    write!(out, "{report}")?;
    Ok(())
}

// What a copy reports before an update, after it, and once more.
fn reports(alloc: Global, made: Made) -> Result<String, Fail> {
    let repo = two_revisions(alloc)?;
    let mut copy = make(alloc, &repo, made)?;
    let mut out = String::new(alloc);
    write_report(alloc, &mut copy, &mut out)?;
    update(alloc, &mut copy)?;
    write_report(alloc, &mut copy, &mut out)?;
    write_report(alloc, &mut copy, &mut out)?;
    Ok(out)
}

fn check(rt: &impl Abort, alloc: Global, made: Made, wanted: &str) -> Result<(), Fail> {
    let found = reports(alloc, made)?;
    assert_eq!(rt; found.as_str(), wanted);
    Ok(())
}

#[test]
fn reports_the_same_after_what_it_learned(rt: HostRuntime) -> Result<(), Fail> {
    const ONE_OLDER: &str = "set . 2\nset f 1\nset . 2\nset . 2\n";
    const ROWS: &[(Made, &str)] = &[
        (Made::ByPlace, ONE_OLDER),
        (Made::ByList, ONE_OLDER),
        (
            Made::WithASwitch,
            "set . 2\nset f 1\nlink g f 1\nset . 2\nlink g f 2\nset . 2\nlink g f 2\n",
        ),
    ];
    for (made, wanted) in ROWS {
        check(&rt, rt.alloc(), *made, wanted)?;
    }
    Ok(())
}

fn shown_empty(alloc: Global) -> Result<String, Fail> {
    let repo = Repo::new(alloc)?;
    let copy = WorkingCopy::checkout(alloc, &repo, Rev(0))?;
    Ok(format!(in alloc; "{copy:?}")?)
}

// As if it were derived on the allocator and the nodes.
#[test]
fn shows_its_nodes(rt: HostRuntime) -> Result<(), Fail> {
    let found = shown_empty(rt.alloc())?;
    assert_eq!(rt;
        found.as_str(),
        "WorkingCopy { alloc: Global, nodes: {[]: Dir { rev: Rev(0), repos_path: [], complete: true, props: Props { map: {} } }} }",
    );
    Ok(())
}

// ---- below a long path of the repository

// `d/d/d`, with that many names.
fn chain(alloc: Global, names: usize) -> Result<String, Fail> {
    let mut path = String::new(alloc);
    for depth in 0..names {
        path.push_str(if depth > 0 { "/d" } else { "d" })?;
    }
    Ok(path)
}

fn push_directory(alloc: Global, names: usize, changes: &mut Vec<Change>) -> Result<(), Fail> {
    let path = RelPath::parse(alloc, &chain(alloc, names)?)?;
    changes.push(Change::MakeDir { path })?;
    Ok(())
}

fn deep_file(alloc: Global, text: &str) -> Result<Change, Fail> {
    let mut path = chain(alloc, 17)?;
    path.push_str("/f")?;
    put(alloc, &path, text)
}

fn deep_changes(alloc: Global, text: &str) -> Result<Vec<Change>, Fail> {
    let mut changes = Vec::new(alloc);
    for names in 1..18usize {
        push_directory(alloc, names, &mut changes)?;
    }
    changes.push(deep_file(alloc, text)?)?;
    Ok(changes)
}

// A chain of 17 directories, with a file in the last.
fn deep_repo(alloc: Global, text: &str) -> Result<Repo, Fail> {
    let mut repo = Repo::new(alloc)?;
    repo.commit(&deep_changes(alloc, text)?)?;
    Ok(repo)
}

// The last directory, with its file placed again, and the whole of it switched below itself.
fn deep_copy(alloc: Global, repo: &Repo) -> Result<WorkingCopy, Fail> {
    let root = RelPath::parse(alloc, &chain(alloc, 17)?)?;
    let mut copy = WorkingCopy::checkout_at(alloc, repo, &root, Rev(1))?;
    place(alloc, repo, &mut copy, "f")?;
    switch(alloc, repo, &mut copy, "g", &root)?;
    Ok(copy)
}

fn shown(alloc: Global) -> Result<String, Fail> {
    let repo = deep_repo(alloc, "a")?;
    let mut copy = deep_copy(alloc, &repo)?;
    let mut out = format!(in alloc; "{copy}")?;
    write_report(alloc, &mut copy, &mut out)?;
    Ok(out)
}

fn wanted(alloc: Global) -> Result<String, Fail> {
    let root = chain(alloc, 17)?;
    let mut out = format!(in alloc; ". dir 1 {root}\nf file 1 {root}/f a\n")?;
    write!(out, "g dir 1 {root}\ng/f file 1 {root}/f a\n")?;
    write!(out, "root {root}\nset . 1\nlink g {root} 1\n")?;
    Ok(out)
}

#[test]
fn places_and_switches_below_a_deep_root(rt: HostRuntime) -> Result<(), Fail> {
    let found = shown(rt.alloc())?;
    assert_eq!(rt; found.as_str(), wanted(rt.alloc())?.as_str());
    Ok(())
}
