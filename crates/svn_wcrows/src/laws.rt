//! Laws of what is written.
ghost use Rattle.svn_wcrows.specs.Laws.{PropertiesAreReadBack, NodesAreReadBack, RowsAreReadBack, WorkIsReadBack};

/// Properties that are written are read back.
pub fn properties_are_read_back()
    ensures { PropertiesAreReadBack }
{}

/// A node of which a record was made is read back from its row, where a file's text is among those that are kept.
pub fn nodes_are_read_back()
    ensures { NodesAreReadBack }
{}

/// Of a whole table of such rows just these nodes are read, at their paths and in their order.
pub fn rows_are_read_back()
    ensures { RowsAreReadBack }
{}

/// Rows of the work queue are of one list of items: what [`work_rows`](crate::work_rows) was given is what [`read_work`](crate::read_work) returns.
pub fn work_is_read_back()
    ensures { WorkIsReadBack }
{}
