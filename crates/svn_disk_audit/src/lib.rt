//! Audits of working copies on disk: whether the copy that the bytes of a database stand for is true of the history that the bytes of a dump stand for.
//!
//! ```
//! let mut loader = Loader::new(alloc, records, Repo::new(alloc)?);
//! loader.load_all_with(&mut listener)?;
//! let repo = loader.into_repo();
//! let below = RelPath::root(alloc);
//! let reading = Reading { takes: Takes::Sparse, texts: Texts::Sha1, below: &below };
//! let question = Question { repo: &repo, reading };
//! let audited = audit(alloc, question, &database, &mut examiner)?;
//! assert!(rt; audited.untrue.is_empty());
//! ```
//!
//! Promises: `load_all_with` of `svn_history` loads the history of the dump's bytes (`dump`), and [`audit`] finds no untrue path exactly where the copy of
//! the database's bytes is true of it (`audit`, `whole`); of a folder, where what they have there is, whatever else they have. A sparse copy may lack what
//! the depths of its directories leave out, and nothing else (`lackable`). A file's text is its
//! pristine text, which was read and has the SHA-1 checksum of the database; texts are kept whole or as stand-ins on both sides, and those by SHA-1 are
//! then the database's ([`stand_ins_stay`]). The database is refused as `svn_wcdb` defines it, and a pristine text only where it is a file's, and has
//! another checksum or can't be read (`fault`). It is for a program to find the files: an [`Examiner`] is asked before the copy is made, and opens the
//! pristine texts; of a copy that is audited it took what the database has (`accepted`). [`read_copy`] reads a copy in the same way, and compares it with nothing. [`compare_repository`] refuses a copy of another repository.
#![tactic(auto)]

mod auditing;
mod examiner;
mod fault;
mod keeping;
mod laws;
mod pristine;
mod repository;
mod sparse;

pub use auditing::{Audited, DiskCopy, Question, Reading, audit, read_copy};
pub use examiner::Examiner;
pub use fault::{AuditFault, PristineFault, PristineRefusal};
pub use laws::stand_ins_stay;
pub use repository::{RepositoryFault, compare_repository};
