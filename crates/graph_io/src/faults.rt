//! Failures, and how many there were.
ghost use Rattle.std.specs.Prelude.{◌≡◌, ◌^◌, ◌<◌};
ghost use Rattle.graph_io.specs.Causes.{CountsFault, count_up};

/// A call of a source or a sink failed.
#[derive(Clone, Copy, PartialEq, Eq, Debug)]
pub struct Failed;

/// How many calls failed. It stays at 2^64 - 1 once it is there.
#[derive(Drop)]
pub(crate) struct FaultCount {
    count: u64,
    ghost in_range: { count < 2 ^ 64 },
}

impl FaultCount {
    pub(crate) fn new() -> FaultCount
        ensures { result.count ≡ 0 }
    {
        FaultCount { count: 0 }
    }

    /// Counts a call that failed, and returns its outcome.
    pub(crate) fn note(&mut self, outcome: Result<usize, Failed>) -> Result<usize, Failed>
        ensures same { result ≡ outcome }
        ensures counted { CountsFault self.old.count self.new.count outcome }
    {
        if outcome.is_err() {
            self.rise();
        }
        outcome
    }

    /// Counts a call that failed.
    pub(crate) fn rise(&mut self)
        ensures { self.new.count ≡ count_up self.old.count }
    {
        self.count = self.count.saturating_add(1);
    }
}
