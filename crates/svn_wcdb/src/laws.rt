//! Laws about what a database stands for. Their functions do nothing: a law is what its function ensures.
ghost use Rattle.svn_wcdb.specs.Pages.{TellsPages};
ghost use Rattle.svn_wcdb.specs.Records.{TellsRecords};
ghost use Rattle.svn_wcdb.specs.Bases.{LocalRowsChangeNothing};

/// A page is taken exactly where it is well formed, as `sqlite_format` defines it.
pub fn pages_are_well_formed()
    ensures { TellsPages }
{}

/// A record is taken exactly where SQLite reads it without complaint, as `sqlite_record` defines it.
pub fn records_are_whole()
    ensures { TellsRecords }
{}

/// A row of a local change adds no node and takes none away.
pub fn local_rows_change_nothing()
    ensures { LocalRowsChangeNothing }
{}
