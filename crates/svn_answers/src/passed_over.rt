//! What is passed over of a working copy.
ghost use Rattle.std.specs.Prelude.{◌≡◌, ◌++◌, Some};
ghost use Rattle.std.specs.Fmt.{DisplaysOnOk};
ghost use Rattle.svn_answers.specs.PassedOver.{comma_if, count_text, counts, one_of, passed_over_text, several_of, sort_words};

use std::fmt;
use svn_wcdb::Notes;

/// What the base nodes don't depend on, counted by its sort.
#[derive(Clone, Copy)]
pub(crate) struct PassedOver(pub(crate) Notes);

// A sort of what is passed over.
#[derive(Clone, Copy)]
enum Sort {
    Change,
    External,
    Actual,
    Lock,
    Work,
    Locked,
}

// How many there are of a sort.
#[derive(Clone, Copy)]
struct Count {
    number: u64,
    sort: Sort,
}

impl Sort {
    fn counted(self, number: u64) -> Count
        ensures { result ≡ record { number = number; sort = self } }
    {
        Count { number, sort: self }
    }

    fn one(self) -> &'static str
        ensures { result.now ≡ one_of self }
    {
        match self {
            Sort::Change => "local change",
            Sort::External => "file external",
            Sort::Actual => "row of conflicts or local properties",
            Sort::Lock => "working copy lock",
            Sort::Work => "unfinished work item",
            Sort::Locked => "file locked in the repository",
        }
    }

    fn several(self) -> &'static str
        ensures { result.now ≡ several_of self }
    {
        match self {
            Sort::Change => "local changes",
            Sort::External => "file externals",
            Sort::Actual => "rows of conflicts or local properties",
            Sort::Lock => "working copy locks",
            Sort::Work => "unfinished work items",
            Sort::Locked => "files locked in the repository",
        }
    }
}

impl Count {
    fn words(self) -> &'static str
        ensures { result.now ≡ sort_words self }
    {
        if self.number == 1 {
            self.sort.one()
        } else {
            self.sort.several()
        }
    }
}

impl fmt::Display for Count {
    ghost output = { λ c. Some (count_text c) };

    fn fmt<W: fmt::Write>(&self, f: &mut fmt::Formatter<W>) -> fmt::Result {
        let (number, words) = (self.number, self.words());
        write!(f, "{number} {words}")
    }
}

impl PassedOver {
    fn counts(self) -> [Count; 6]
        ensures { result ≡ counts self.0 }
    {
        let notes = self.0;
        [
            Sort::Change.counted(notes.changes),
            Sort::External.counted(notes.externals),
            Sort::Actual.counted(notes.actual),
            Sort::Lock.counted(notes.locks),
            Sort::Work.counted(notes.work),
            Sort::Locked.counted(notes.locked),
        ]
    }
}

// Writes how many there are of a sort, after a comma where it isn't the first.
fn write_count<W: fmt::Write>(count: Count, more: bool, f: &mut fmt::Formatter<W>) -> fmt::Result
    ensures { DisplaysOnOk W.write_str_gives f.old result (Some (comma_if more ++ count_text count)) f.new }
{
    if more {
        write!(f, ", {count}")
    } else {
        write!(f, "{count}")
    }
}

/// The sorts that there are any of, after one another.
impl fmt::Display for PassedOver {
    ghost output = { λ p. Some (passed_over_text p.0) };

    fn fmt<W: fmt::Write>(&self, f: &mut fmt::Formatter<W>) -> fmt::Result {
        let mut more = false;
        for count in &self.counts() {
            if count.number > 0 {
                write_count(*count, more, f)?;
                more = true;
            }
        }
        Ok(())
    }
}
