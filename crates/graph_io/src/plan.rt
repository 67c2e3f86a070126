//! Calls that fail by plan.
ghost use Rattle.std.specs.Prelude.{◌≡◌, ◌↔◌, IsTrue, Contains};
ghost use Rattle.graph_io.specs.Plan.{call_number};

use field_core::List;

/// The numbers of the calls that are to fail, from 1, and how many calls were made.
#[derive(Drop)]
pub(crate) struct Plan {
    fails: List<u64>,
    calls: u64,
}

impl Plan {
    pub(crate) fn new(fails: List<u64>) -> Plan
        ensures fails { result.fails ≡ fails }
        ensures calls { result.calls ≡ 0 }
    {
        Plan { fails, calls: 0 }
    }

    /// Whether the next call, which is counted, is to fail.
    pub(crate) fn next_fails(&mut self) -> bool
        ensures listed { IsTrue result ↔ Contains self.old.fails (call_number self.old.calls) }
        ensures counted { self.new.calls ≡ call_number self.old.calls }
        ensures fails { self.new.fails ≡ self.old.fails }
    {
        self.calls = self.calls.saturating_add(1);
        self.fails.as_slice().contains(&self.calls)
    }
}
