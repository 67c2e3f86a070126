//! Where looks are kept: in the file at a path until it is first used, and then over a connection.
ghost use Rattle.sqlite.specs.WalFiles.{image_at};
ghost use Rattle.std.specs.Prelude.{IfOk, IfErr, OnOk, OnErr};
ghost use Rattle.study_sqlite.specs.FileFaults.{OnRefusal, OnMemory};
ghost use Rattle.study_sqlite.specs.Storing.{
  IsOpenedFrom,
  IsNotOpened,
  AreLoaded,
  IsAppended,
  IsLoadRefused,
  IsAppendRefused,
  IsLoadCut,
  IsAppendCut,
  IsClosed,
  IsCloseFault,
};

use crate::kept::{keep_in, looks_in};
use crate::table::{self, FileName};
use crate::{Closed, FileFault};
use field_core::List;
use graph_io::Look;
use sqlite::{Connection, FileFrom, FileStore, Start};
use sqlite_disk::Disk;
use std::alloc::Global;
use std::mem;

/// A file of looks.
#[derive(Drop)]
pub enum Storage<D: Disk, S: Start> {
    /// The file of this name, which no call has used yet.
    Unopened(FileName<S>),
    Opened(Connection<FileStore<D>>),
    /// The file could not be opened, and is not tried again.
    Failed,
}

impl<S: Start> Storage<FileFrom<S>, S> {
    /// Opens the file if it isn't open. If the opening is refused, it is not tried again.
    fn open(&mut self) -> Result<(), FileFault>
        ensures opened { OnOk result (IsOpenedFrom (image_at S.Start) self.old self.new) }
        ensures why { OnErr result (IsNotOpened self.old self.new) }
    {
        match mem::replace(self, Storage::Failed) {
            Storage::Unopened(name) => {
                let connection = name.open()?;
                *self = Storage::Opened(connection);
                Ok(())
            }
            Storage::Opened(connection) => {
                *self = Storage::Opened(connection);
                Ok(())
            }
            Storage::Failed => Err(FileFault::Refused),
        }
    }

    /// Returns the looks in the file, which is opened if it isn't open. It is refused only if the opening is, if a statement gives
    /// an error, or for a row that is not the row of a look.
    pub fn looks(&mut self, alloc: Global) -> Result<List<Look>, FileFault>
        ensures loaded { IfOk result (AreLoaded (image_at S.Start) self.old self.new) }
        ensures why { IfErr result (OnRefusal (IsLoadRefused (image_at S.Start) self.old self.new)) }
        ensures memory { IfErr result (OnMemory (IsLoadCut (image_at S.Start) self.old self.new)) }
    {
        self.open()?;
        match self {
            Storage::Opened(connection) => looks_in(alloc, connection),
            Storage::Unopened(_) | Storage::Failed => unreachable!(),
        }
    }

    /// Puts the row of a look into the file, which is opened if it isn't open. It is refused only if the opening is, or if a
    /// statement gives an error.
    pub fn keep(&mut self, alloc: Global, look: &Look) -> Result<(), FileFault>
        ensures appended { OnOk result (IsAppended (image_at S.Start) self.old self.new look.now) }
        ensures why { IfErr result (OnRefusal (IsAppendRefused (image_at S.Start) self.old self.new look.now)) }
        ensures memory { IfErr result (OnMemory (IsAppendCut (image_at S.Start) self.old self.new look.now)) }
    {
        self.open()?;
        match self {
            Storage::Opened(connection) => keep_in(alloc, connection, look),
            Storage::Unopened(_) | Storage::Failed => unreachable!(),
        }
    }

    /// Copies the log into the file, if the file was opened, and gives both back; they are closed when they are dropped.
    pub fn close(self) -> Result<Closed<FileFrom<S>>, FileFault>
        ensures closed { IfOk result (IsClosed self) }
        ensures why { IfErr result (IsCloseFault self) }
    {
        match self {
            Storage::Opened(connection) => Ok(Closed::Files(table::close(connection)?)),
            Storage::Unopened(_) | Storage::Failed => Ok(Closed::Unopened),
        }
    }
}
