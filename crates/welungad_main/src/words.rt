//! The words after the program's name.
use std::alloc::AllocError;
use std::io::ErrorKind;
use std::{env, io};

/// Why the words after the program's name couldn't be read.
#[derive(Clone, Copy)]
pub enum NoWords {
    NoMemory,
    Unreadable,
}

impl NoWords {
    ghost use Rattle.std.specs.Prelude.{◌≡◌};
    ghost use Rattle.welungad_main.specs.declared.words.NoWords.TheVariants.{NoMemory, Unreadable};

    /// Returns the status with which the program ends. Nothing is printed then.
    pub fn status(&self) -> u8
        ensures memory { self.now ≡ NoMemory → result ≡ 8 }
        ensures unreadable { self.now ≡ Unreadable → result ≡ 10 }
    {
        match self {
            NoWords::NoMemory => 8,
            NoWords::Unreadable => 10,
        }
    }
}

impl From<io::Error> for NoWords {
    ghost use Rattle.std.specs.Prelude.{◌≡◌, ◌≢◌};
    ghost use Rattle.std.specs.IoError.{error_kind};
    ghost use Rattle.welungad_main.specs.declared.words.NoWords.TheVariants.{NoMemory, Unreadable};

    fn from(error: io::Error) -> NoWords
        ensures memory { error_kind error ≡ ErrorKind.OutOfMemory → result ≡ NoMemory }
        ensures other { error_kind error ≢ ErrorKind.OutOfMemory → result ≡ Unreadable }
    {
        match error.kind() {
            ErrorKind::OutOfMemory => NoWords::NoMemory,
            _ => NoWords::Unreadable,
        }
    }
}

impl From<AllocError> for NoWords {
    ghost use Rattle.std.specs.Prelude.{◌≡◌};
    ghost use Rattle.welungad_main.specs.declared.words.NoWords.TheVariants.{NoMemory};

    ghost from_gives = { λ _ none. none ≡ NoMemory };

    fn from(_: AllocError) -> NoWords {
        NoWords::NoMemory
    }
}

/// Reads the words after the program's name. The error is `NoMemory` if out of memory, and `Unreadable` for any other reason.
pub fn program_words(rt: &HostRuntime) -> Result<Vec<String>, NoWords> {
    Ok(env::args(rt)?.skip(1).collect(rt.alloc())?)
}
