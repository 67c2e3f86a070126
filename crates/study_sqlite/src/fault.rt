//! Why rows weren't read, and why a file was refused.
use field_core::NoMemory;
use sqlite::{Error, ErrorCode};

/// Why rows gave no looks.
#[derive(Clone, Copy, PartialEq, Eq, Debug)]
pub enum RowsFault {
    /// The row at this place, counted from 1, is not the row of a look, and it is the first such row.
    Bad(usize),
    /// Out of memory.
    NoMemory,
}

impl From<NoMemory> for RowsFault {
    ghost use Rattle.std.specs.Prelude.{◌≡◌};
    ghost use Rattle.study_sqlite.specs.declared.fault.RowsFault.TheVariants.{NoMemory};

    ghost from_gives = { λ _ fault. fault ≡ NoMemory };

    fn from(_: NoMemory) -> RowsFault {
        RowsFault::NoMemory
    }
}

/// Why a file wasn't opened, returned no looks, or took no look.
#[derive(Clone, Copy, PartialEq, Eq, Debug)]
pub enum FileFault {
    /// The file, a statement or a row was refused.
    Refused,
    /// Out of memory.
    NoMemory,
}

impl From<NoMemory> for FileFault {
    ghost use Rattle.std.specs.Prelude.{◌≡◌};
    ghost use Rattle.study_sqlite.specs.declared.fault.FileFault.TheVariants.{NoMemory};

    ghost from_gives = { λ _ fault. fault ≡ NoMemory };

    fn from(_: NoMemory) -> FileFault {
        FileFault::NoMemory
    }
}

impl From<Error> for FileFault {
    ghost use Rattle.std.specs.Prelude.{◌≡◌};
    ghost use Rattle.study_sqlite.specs.FileFaults.{fault_of_error};

    ghost from_gives = { λ error fault. fault ≡ fault_of_error error };

    fn from(error: Error) -> FileFault {
        match error {
            Error::SqliteFailure(ErrorCode::OutOfMemory) => FileFault::NoMemory,
            _ => FileFault::Refused,
        }
    }
}

impl From<RowsFault> for FileFault {
    ghost use Rattle.std.specs.Prelude.{◌≡◌};
    ghost use Rattle.study_sqlite.specs.FileFaults.{fault_of_rows};

    ghost from_gives = { λ bad fault. fault ≡ fault_of_rows bad };

    fn from(fault: RowsFault) -> FileFault {
        match fault {
            RowsFault::Bad(_) => FileFault::Refused,
            RowsFault::NoMemory => FileFault::NoMemory,
        }
    }
}
