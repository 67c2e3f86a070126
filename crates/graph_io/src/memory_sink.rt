//! A sink in memory.
ghost use Rattle.std.specs.Prelude.{◌≡◌, ◌+◌, ◌<◌, ◌↔◌, [], min, length, IfOk, IsErr, Some};

use crate::calls::CallCount;
use crate::faults::FaultCount;
use crate::room::Room;
use crate::{Failed, Sink};
use field_core::NoMemory;
use std::alloc::Global;

/// A sink with a fixed room in memory. It exposes what it holds, takes what fits, and fails only if it has no room left.
#[derive(Drop)]
pub struct MemorySink {
    room: Room,
    faults: FaultCount,
    calls: CallCount,
}

impl MemorySink {
    ghost use Rattle.graph_io.specs.MemorySink.{held_bytes, room_left, fault_count, call_count};

    /// Returns an empty sink with room for this number of bytes, or `NoMemory`.
    pub fn with_room(alloc: Global, bytes: usize) -> Result<MemorySink, NoMemory>
        ensures empty { IfOk result (λ sink. held_bytes sink ≡ []) }
        ensures room { IfOk result (λ sink. room_left sink ≡ bytes) }
        ensures faults { IfOk result (λ sink. fault_count sink ≡ 0) }
        ensures calls { IfOk result (λ sink. call_count sink ≡ 0) }
    {
        Ok(MemorySink {
            room: Room::new(alloc, bytes)?,
            faults: FaultCount::new(),
            calls: CallCount::new(),
        })
    }

    /// Returns what the sink holds.
    pub fn held(&self) -> &[u8]
        ensures { result.now ≡ held_bytes self.now }
    {
        self.room.held()
    }
}

impl Sink for MemorySink {
    ghost use Rattle.std.specs.Io.{WritesAtMost};
    ghost use Rattle.std.specs.Io.KnownBytes.{WriteAppends};
    ghost use Rattle.graph_io.specs.Causes.{HasCause, CountsFault};
    ghost use Rattle.graph_io.specs.MemorySink.{held_bytes, room_left, fault_count, call_count};
    ghost use Rattle.graph_io.specs.Room.{TakesRoom};

    ghost held = { λ s. Some (held_bytes s) };

    ghost faults = { fault_count };

    ghost calls = { call_count };

    ghost counted = { λ s. s.faults.in_range };

    fn put(&mut self, bytes: &[u8]) -> Result<usize, Failed>
        ensures bound { WritesAtMost result bytes.now }
        ensures some { IfOk result (λ n. 0 < length bytes.now → 0 < n) }
        ensures bytes { WriteAppends (Some (held_bytes self.old)) (Some (held_bytes self.new))
            result bytes.now }
        ensures cause { HasCause (fault_count self.old) (fault_count self.new) result }
        ensures turn { call_count self.new ≡ call_count self.old + 1 }

        // Only a piece that isn't empty, if no room is left, fails.
        ensures fails { IsErr result ↔ ((room_left self.old ≡ 0) × (0 < length bytes.now)) }
        ensures count { IfOk result (λ n. n ≡ min (length bytes.now) (room_left self.old)) }
        ensures room { TakesRoom (room_left self.old) (room_left self.new) result }
        ensures counted { CountsFault (fault_count self.old) (fault_count self.new) result }
    {
        self.calls.rise();
        let taken = self.room.put(bytes, bytes.len());
        self.faults.note(taken)
    }
}
