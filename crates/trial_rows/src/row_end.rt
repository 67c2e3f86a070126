//! How a row ends.

/// How a row ends.
#[derive(Clone, Copy)]
pub(crate) enum RowEnd {
    /// Each double has a reading, and the run with these is defined.
    Decided,
    /// A double has no reading.
    Unread,
    /// Each double has a reading, and the run with these is undefined.
    Wide,
}

impl RowEnd {
    ghost use Rattle.std.specs.Prelude.{◌≡◌};
    ghost use Rattle.trial_rows.specs.RowEnds.{end_code};

    /// Returns the status of a row that ends so.
    pub(crate) fn code(self) -> u8
        ensures { result ≡ end_code self }
    {
        match self {
            RowEnd::Decided => 0,
            RowEnd::Unread => 3,
            RowEnd::Wide => 5,
        }
    }
}
