//! Edges of drafts.
ghost use Rattle.std.specs.Prelude.{◌≡◌, ◌≤◌, ◌<◌, ◌+◌, ◌*◌, true};
ghost use Rattle.case_model.specs.Draft.{goes_between};
ghost use Rattle.case_model.specs.CaseFaults.{is_self_edge};

use crate::Entry;

/// An edge of a draft, from a hypothesis to a hypothesis, by their positions.
#[derive(Drop)]
pub struct DraftEdge {
    pub from: usize,
    pub to: usize,
    pub entry: Entry,
}

impl DraftEdge {
    /// Whether the edge goes from one of `count` hypotheses to one of them.
    pub(crate) fn goes_between(&self, count: usize) -> bool
        ensures { result ≡ goes_between count self.now }
    {
        self.from < count && self.to < count
    }

    /// Returns the place of the edge in the table of the edges between `count` hypotheses, row by row.
    pub(crate) fn place(&self, count: usize) -> usize
        requires few { count ≤ 64 }
        requires ends { goes_between count self.now ≡ true }
        ensures place { result ≡ self.now.from * count + self.now.to }
        ensures within { result < count * count }
    {
        self.from * count + self.to
    }

    /// Whether the edge goes from a hypothesis to itself and isn't 0.
    pub(crate) fn is_self_edge(&self) -> bool
        ensures { result ≡ is_self_edge self.now }
    {
        self.from == self.to && !self.entry.is_zero()
    }
}
