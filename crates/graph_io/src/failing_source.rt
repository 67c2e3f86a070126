//! A source in memory that fails by plan.
ghost use Rattle.std.specs.Prelude.{
  ◌≡◌,
  ◌+◌,
  ◌<◌,
  ◌≤◌,
  ◌↔◌,
  min,
  length,
  drop,
  IfOk,
  OnErr,
  IsErr,
  Some,
  Contains,
};

use crate::calls::CallCount;
use crate::faults::FaultCount;
use crate::plan::Plan;
use crate::remaining::Remaining;
use crate::{Failed, Source};
use field_core::List;

/// A source of bytes in memory, for tests. It exposes its bytes, moves at most `cap` bytes a take, and fails at the
/// takes of given numbers.
#[derive(Drop)]
pub struct FailingSource {
    rest: Remaining,
    cap: usize,
    plan: Plan,
    faults: FaultCount,
    calls: CallCount,
    ghost moves: { 0 < cap },
}

impl FailingSource {
    ghost use Rattle.graph_io.specs.FailingSource.{bytes_left, most_a_take, fails_at, takes_made, fault_count, call_count};

    /// Returns a source of these bytes that moves at most `cap` of them a take, at least 1, and fails at the takes
    /// whose numbers, from 1, are in `fails`.
    pub fn new(bytes: List<u8>, cap: usize, fails: List<u64>) -> FailingSource
        requires { 1 ≤ cap }
        ensures bytes { bytes_left result ≡ bytes }
        ensures cap { most_a_take result ≡ cap }
        ensures fails { fails_at result ≡ fails }
        ensures takes { takes_made result ≡ 0 }
        ensures faults { fault_count result ≡ 0 }
        ensures calls { call_count result ≡ 0 }
    {
        FailingSource {
            rest: Remaining::new(bytes),
            cap,
            plan: Plan::new(fails),
            faults: FaultCount::new(),
            calls: CallCount::new(),
        }
    }
}

impl Source for FailingSource {
    ghost use Rattle.std.specs.Io.{ReadsAtMost};
    ghost use Rattle.std.specs.Io.KnownBytes.{ReadConsumes};
    ghost use Rattle.graph_io.specs.Causes.{HasCause, CountsFault};
    ghost use Rattle.graph_io.specs.Plan.{call_number};
    ghost use Rattle.graph_io.specs.FailingSource.{
      bytes_left,
      most_a_take,
      fails_at,
      takes_made,
      fault_count,
      call_count,
      HasSamePlan,
    };

    ghost left = { λ s. Some (bytes_left s) };

    ghost faults = { fault_count };

    ghost calls = { call_count };

    ghost counted = { λ s. s.faults.in_range };

    fn take(&mut self, buf: &mut [u8]) -> Result<usize, Failed>
        ensures bound { ReadsAtMost result buf.new }
        ensures bytes { ReadConsumes (Some (bytes_left self.old)) (Some (bytes_left self.new))
            result buf.new }
        ensures cause { HasCause (fault_count self.old) (fault_count self.new) result }
        ensures turn { call_count self.new ≡ call_count self.old + 1 }

        // The takes whose numbers are in the list fail, and no others.
        ensures fails { IsErr result
            ↔ Contains (fails_at self.old) (call_number (takes_made self.old)) }
        ensures takes { takes_made self.new ≡ call_number (takes_made self.old) }
        ensures plan { HasSamePlan self.old self.new }
        ensures counted { CountsFault (fault_count self.old) (fault_count self.new) result }

        ensures count { IfOk result (λ n.
            n ≡ min (most_a_take self.old) (min (length (bytes_left self.old)) (length buf.old))) }
        ensures beyond { IfOk result (λ n. drop n buf.new ≡ drop n buf.old) }
        ensures unmoved { OnErr result (buf.new ≡ buf.old) }
    {
        self.calls.rise();
        let moved = if self.plan.next_fails() {
            Err(Failed)
        } else {
            Ok(self.rest.move_into(buf, self.cap))
        };
        self.faults.note(moved)
    }
}
