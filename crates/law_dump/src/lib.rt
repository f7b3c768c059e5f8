//! The laws of dumps. They are stated over the definitions of `svn_dump` and over a grammar of the format, `specs/Grammar.antt`, which says which
//! bytes are a dump without limits, faults or an order of reading. The laws are in `specs/Laws.antt`; each is the contract of a function that does
//! nothing: who calls the function has the law.
//!
//! ```
//! node_is_lawful(&node);
//! whole_nodes_are_read_back();
//! // from here on the proof knows that a reader whose limits the node is within reads what `push_node` wrote as the node
//! ```
//!
//! - What is written is read back. The premise is `IsWritable`: the record is lawful, as each is that the types hold ([`node_is_lawful`]), and its
//!   lengths are within the reader's limits. With the contracts of `push_node` and `Reader::next_record` a reader returns the records that were
//!   written, in their order.
//! - What is read is by the grammar, and so is what is written; what is by it is read as what it says, if it is within the reader's limits
//!   (`IsWithin`, `IsDumpWithin`); and no bytes are two dumps by it.
#![tactic(auto)]

mod lawful;

ghost use Rattle.law_dump.specs.Laws.{dumps_are_by_the_grammar, dumps_are_one, dumps_are_read_back, dumps_are_written_by_the_grammar, dumps_of_the_grammar_are_read};
ghost use Rattle.law_dump.specs.Laws.{nodes_are_read_back, records_are_by_the_grammar, records_are_one};
ghost use Rattle.law_dump.specs.Laws.{records_of_the_grammar_are_read, revisions_are_read_back, whole_nodes_are_read_back};

pub use lawful::node_is_lawful;

/// A node's record that was written is read as that record, its text as it is kept.
pub fn nodes_are_read_back()
    ensures { nodes_are_read_back }
{}

/// With whole texts it is read as the node itself.
pub fn whole_nodes_are_read_back()
    ensures { whole_nodes_are_read_back }
{}

/// The beginning of a revision that was written is read as that revision.
pub fn revisions_are_read_back()
    ensures { revisions_are_read_back }
{}

/// A dump that was written is read as the records that were written, in their order, and then its end.
pub fn dumps_are_read_back()
    ensures { dumps_are_read_back }
{}

/// What is read of a record is by the grammar.
pub fn records_are_by_the_grammar()
    ensures { records_are_by_the_grammar }
{}

/// What is read of a whole dump is by the grammar.
pub fn dumps_are_by_the_grammar()
    ensures { dumps_are_by_the_grammar }
{}

/// A record of the grammar is read as what is kept of it, within the limits.
pub fn records_of_the_grammar_are_read()
    ensures { records_of_the_grammar_are_read }
{}

/// A dump of the grammar is read as what is kept of its records, within the limits.
pub fn dumps_of_the_grammar_are_read()
    ensures { dumps_of_the_grammar_are_read }
{}

/// No bytes are two records of the grammar.
pub fn records_are_one()
    ensures { records_are_one }
{}

/// Nor are they two dumps.
pub fn dumps_are_one()
    ensures { dumps_are_one }
{}

/// A dump that was written is by the grammar.
pub fn dumps_are_written_by_the_grammar()
    ensures { dumps_are_written_by_the_grammar }
{}
