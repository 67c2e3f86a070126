//! How devices move bytes, and which of their calls fail.
use std::fmt;

/// More bytes than any call moves.
const ALL: usize = 65_536;

/// A plan of the devices of a run. Calls count from 1, so that at 0 none fails.
#[derive(Clone, Copy)]
pub struct Plan {
    /// The most bytes that a take of a source moves, at least 1.
    pub take_most: usize,
    /// The most bytes that a put takes, at least 1.
    pub put_most: usize,
    /// The room of the sink, if it takes what fits at once.
    pub room: Option<usize>,
    pub case_take: u64,
    pub file_take: u64,
    pub keeper_call: u64,
    pub put: u64,
}

impl Plan {
    /// Returns the plan in which no call fails, and each moves all that it may.
    pub fn whole() -> Plan {
        Plan::of_pieces(ALL, ALL)
    }

    /// Returns the plan in which no call fails, and each moves at most this number of bytes.
    pub fn of_pieces(take_most: usize, put_most: usize) -> Plan {
        Plan {
            take_most,
            put_most,
            room: None,
            case_take: 0,
            file_take: 0,
            keeper_call: 0,
            put: 0,
        }
    }

    /// Returns the plan in which a call fails only if the sink has no room left. It has this room.
    pub fn of_room(room: usize) -> Plan {
        Plan {
            room: Some(room),
            ..Plan::whole()
        }
    }
}

impl fmt::Display for Plan {
    fn fmt<W: fmt::Write>(&self, f: &mut fmt::Formatter<W>) -> fmt::Result {
        write!(
            f,
            "at most {} bytes a take and {} a put",
            self.take_most, self.put_most
        )?;
        if let Some(room) = self.room {
            write!(f, ", room for {room}")?;
        }
        let calls = [
            ("take of the case", self.case_take),
            ("take of the file", self.file_take),
            ("call of the keeper", self.keeper_call),
            ("put", self.put),
        ];
        for (call, number) in calls {
            if number != 0 {
                write!(f, ", {call} {number} fails")?;
            }
        }
        Ok(())
    }
}
