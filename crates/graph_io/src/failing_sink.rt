//! A sink in memory that fails by plan.
ghost use Rattle.std.specs.Prelude.{
  ◌≡◌,
  ◌+◌,
  ◌⊎◌,
  ◌<◌,
  ◌≤◌,
  ◌↔◌,
  [],
  min,
  length,
  IfOk,
  IsErr,
  Some,
  Contains,
};

use crate::calls::CallCount;
use crate::faults::FaultCount;
use crate::plan::Plan;
use crate::room::Room;
use crate::{Failed, Sink};
use field_core::{List, NoMemory};
use std::alloc::Global;

/// The room of a failing sink, in bytes.
const ROOM: usize = 65_536;

/// A sink in memory with room for 65,536 bytes, for tests. It exposes what it holds, and takes at most `cap` bytes a put. It
/// fails at the puts of given numbers, and if some bytes are put and no room is left.
#[derive(Drop)]
pub struct FailingSink {
    room: Room,
    cap: usize,
    plan: Plan,
    faults: FaultCount,
    calls: CallCount,
    ghost takes: { 0 < cap },
}

impl FailingSink {
    ghost use Rattle.graph_io.specs.FailingSink.{held_bytes, room_left, most_a_put, fails_at, puts_made, fault_count, call_count};

    /// Returns an empty sink that takes at most `cap` bytes a put, at least 1, and fails at the puts whose numbers,
    /// from 1, are in `fails`; or `NoMemory`.
    pub fn new(alloc: Global, cap: usize, fails: List<u64>) -> Result<FailingSink, NoMemory>
        requires { 1 ≤ cap }
        ensures empty { IfOk result (λ sink. held_bytes sink ≡ []) }
        ensures room { IfOk result (λ sink. room_left sink ≡ 65536) }
        ensures cap { IfOk result (λ sink. most_a_put sink ≡ cap) }
        ensures fails { IfOk result (λ sink. fails_at sink ≡ fails) }
        ensures puts { IfOk result (λ sink. puts_made sink ≡ 0) }
        ensures faults { IfOk result (λ sink. fault_count sink ≡ 0) }
        ensures calls { IfOk result (λ sink. call_count sink ≡ 0) }
    {
        Ok(FailingSink {
            room: Room::new(alloc, ROOM)?,
            cap,
            plan: Plan::new(fails),
            faults: FaultCount::new(),
            calls: CallCount::new(),
        })
    }

    /// Returns what the sink holds.
    pub fn held(&self) -> &[u8]
        ensures { result.now ≡ held_bytes self.now }
    {
        self.room.held()
    }
}

impl Sink for FailingSink {
    ghost use Rattle.std.specs.Io.{WritesAtMost};
    ghost use Rattle.std.specs.Io.KnownBytes.{WriteAppends};
    ghost use Rattle.graph_io.specs.Causes.{HasCause, CountsFault};
    ghost use Rattle.graph_io.specs.Room.{TakesRoom};
    ghost use Rattle.graph_io.specs.Plan.{call_number};
    ghost use Rattle.graph_io.specs.FailingSink.{
      held_bytes,
      room_left,
      most_a_put,
      fails_at,
      puts_made,
      fault_count,
      call_count,
      HasSamePlan,
    };

    ghost held = { λ s. Some (held_bytes s) };

    ghost faults = { fault_count };

    ghost calls = { call_count };

    ghost counted = { λ s. s.faults.in_range };

    fn put(&mut self, bytes: &[u8]) -> Result<usize, Failed>
        ensures bound { WritesAtMost result bytes.now }
        ensures some { IfOk result (λ n. 0 < length bytes.now → 0 < n) }
        ensures bytes { WriteAppends (Some (held_bytes self.old)) (Some (held_bytes self.new))
            result bytes.now }
        ensures cause { HasCause (fault_count self.old) (fault_count self.new) result }
        ensures turn { call_count self.new ≡ call_count self.old + 1 }

        // The puts whose numbers are in the list fail, those of some bytes with no room left fail, and no others.
        ensures fails { IsErr result
            ↔ (Contains (fails_at self.old) (call_number (puts_made self.old))
            ⊎ ((room_left self.old ≡ 0) × (0 < length bytes.now))) }
        ensures puts { puts_made self.new ≡ call_number (puts_made self.old) }
        ensures plan { HasSamePlan self.old self.new }
        ensures counted { CountsFault (fault_count self.old) (fault_count self.new) result }

        ensures count { IfOk result (λ n.
            n ≡ min (length bytes.now) (min (most_a_put self.old) (room_left self.old))) }
        ensures room { TakesRoom (room_left self.old) (room_left self.new) result }
    {
        self.calls.rise();
        let taken = if self.plan.next_fails() {
            Err(Failed)
        } else {
            self.room.put(bytes, self.cap)
        };
        self.faults.note(taken)
    }
}
