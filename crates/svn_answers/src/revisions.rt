//! The revisions of a working copy's nodes.
ghost use Rattle.std.specs.Prelude.{◌≡◌, min, max};
ghost use Rattle.svn_model.specs.Nodes.{present_revision};
ghost use Rattle.svn_answers.specs.Lines.{merged, lowest, highest, or_zero};

use svn_model::BaseNode;
use svn_types::Rev;
use svn_wc::WorkingCopy;

/// The number of a revision; 0 where there is none.
pub(crate) fn or_zero(rev: Option<Rev>) -> u64
    ensures { result ≡ or_zero rev }
{
    match rev {
        Some(rev) => rev.0,
        None => 0,
    }
}

/// The first and the last revision of nodes, where one has any.
#[derive(Debug, Drop)]
pub(crate) struct Span {
    pub(crate) first: Option<Rev>,
    pub(crate) last: Option<Rev>,
}

impl Span {
    // One more node.
    fn add(&mut self, node: &BaseNode)
        ensures first { self.new.first ≡ merged min self.old.first (present_revision node.now) }
        ensures last { self.new.last ≡ merged max self.old.last (present_revision node.now) }
    {
        let Some(rev) = node.rev() else {
            return;
        };
        self.first = match self.first {
            Some(first) => Some(Rev(first.0.min(rev.0))),
            None => Some(rev),
        };
        self.last = match self.last {
            Some(last) => Some(Rev(last.0.max(rev.0))),
            None => Some(rev),
        };
    }
}

/// The revisions of a copy's nodes.
pub(crate) fn span_of(copy: &WorkingCopy) -> Span
    ensures first { result.first ≡ lowest copy.now }
    ensures last { result.last ≡ highest copy.now }
{
    let mut span = Span {
        first: None,
        last: None,
    };
    for (_, node) in copy.nodes() {
        span.add(node);
    }
    span
}
