//! A keeper in a file.
ghost use Rattle.sqlite.specs.WalFiles.{image_at};
ghost use Rattle.std.specs.Prelude.{◌≡◌, ◌<◌, ◌+◌, ◌^◌, None, IfOk, IfErr, OnOk, OnErr};

use crate::storage::Storage;
use crate::table::{FileConnection, FileName};
use crate::{Closed, FileFault};
use field_core::List;
use graph_io::{CallCount, Keeper, KeeperFault, Look};
use sqlite::{FileFrom, Start};
use sqlite_disk::Disk;
use std::alloc::Global;

/// A keeper of looks in a file. It doesn't expose its looks to contracts. Each call is counted; one that meets a refused statement,
/// or a row that is not the row of a look, is also counted as a fault.
pub struct SqliteKeeper<D: Disk, S: Start> {
    storage: Storage<D, S>,
    faults: u64,
    calls: CallCount,
    ghost in_range: { faults < 2 ^ 64 },
}

/// A keeper over a file that held what `S` names as it was opened.
pub type FileKeeper<S> = SqliteKeeper<FileFrom<S>, S>;

impl<S: Start> FileKeeper<S> {
    ghost use Rattle.study_sqlite.specs.Counting.{fault_count, call_count, IsCounted};
    ghost use Rattle.std.specs.Prelude.{string_bytes};
    ghost use Rattle.study_sqlite.specs.Looks.{LeavesLooks};
    ghost use Rattle.study_sqlite.specs.Storing.{storage_of, IsClosed, IsCloseFault, IsUnopenedAt};
    ghost use Rattle.study_sqlite.specs.declared.storage.Storage.TheVariants.{Opened};

    /// Returns a keeper over this connection.
    pub fn new(connection: FileConnection<S>) -> FileKeeper<S>
        ensures storage { storage_of result ≡ Opened connection }
        ensures faults { fault_count result ≡ 0 }
        ensures calls { call_count result ≡ 0 }
    {
        SqliteKeeper {
            storage: Storage::Opened(connection),
            faults: 0,
            calls: CallCount::new(),
        }
    }

    /// Returns a keeper over the file at this path. The first call opens the file, and makes it if it isn't there; until then
    /// nothing is read from it or written to it.
    pub fn at(rt: &HostRuntime, path: String, start: S) -> FileKeeper<S>
        ensures storage { IsUnopenedAt (string_bytes path) (storage_of result) }
        ensures faults { fault_count result ≡ 0 }
        ensures calls { call_count result ≡ 0 }
    {
        SqliteKeeper {
            storage: Storage::Unopened(FileName::new(rt, path, start)),
            faults: 0,
            calls: CallCount::new(),
        }
    }

    /// Copies what the log beside the file holds into the file, if the file was opened, and gives both back; they are closed when
    /// they are dropped. The last commit is in the file then, without the log and also after a crash, as long as the disk
    /// returned what was written. If the copying is refused, the log still holds the commit, and the next opening finds it there.
    pub fn close(self) -> Result<Closed<FileFrom<S>>, FileFault>
        ensures closed { IfOk result (IsClosed (storage_of self)) }
        ensures left { IfOk result (LeavesLooks (storage_of self)) }
        ensures why { IfErr result (IsCloseFault (storage_of self)) }
    {
        let SqliteKeeper {
            storage,
            faults: _,
            calls: _,
        } = self;
        storage.close()
    }

    /// Counts a fault of the file, unless it is out of memory, and returns the fault of the keeper.
    fn counted(&mut self, fault: FileFault) -> KeeperFault
        ensures counted { IsCounted (fault_count self.old) (fault_count self.new) fault result }
        ensures storage { storage_of self.new ≡ storage_of self.old }
        ensures calls { call_count self.new ≡ call_count self.old }
    {
        match fault {
            FileFault::Refused => {
                self.faults = self.faults.saturating_add(1);
                KeeperFault::Fault
            }
            FileFault::NoMemory => KeeperFault::NoMemory,
        }
    }
}

impl<S: Start> Keeper for FileKeeper<S> {
    ghost use Rattle.graph_io.specs.Keeping.{Loads, IsCaused};
    ghost use Rattle.study_sqlite.specs.Counting.{fault_count, call_count, OnFault, OnNoMemory};
    ghost use Rattle.study_sqlite.specs.Looks.{LoadsAll, PutsOne};
    ghost use Rattle.study_sqlite.specs.Storing.{storage_of, IsLoaded, IsAppended, IsLoadRefused, IsAppendRefused, IsLoadCut, IsAppendCut};

    ghost looks = { λ k. None };

    ghost faults = { fault_count };

    ghost calls = { call_count };

    ghost counted = { λ k. k.in_range };

    /// Appends the looks of the file to a list.
    ///
    /// As long as the disk returned what was written, a fault is reported only in these cases:
    /// - the file isn't open then;
    /// - a statement gave an error;
    /// - the file showed a row that is not the row of a look.
    fn load(&mut self, alloc: Global, into: &mut List<Look>) -> Result<(), KeeperFault>
        ensures loaded { OnOk result (Loads None into.old into.new) }
        ensures unchanged { OnErr result (into.new ≡ into.old) }
        ensures cause { IsCaused (fault_count self.old) (fault_count self.new) result }
        ensures turn { call_count self.new ≡ call_count self.old + 1 }
        ensures all { OnOk result (LoadsAll (image_at S.Start) (storage_of self.old) (storage_of self.new) into.old into.new) }
        ensures looks { OnOk result (IsLoaded (image_at S.Start) (storage_of self.old) (storage_of self.new) into.old into.new) }
        ensures why { IfErr result (OnFault (IsLoadRefused (image_at S.Start) (storage_of self.old) (storage_of self.new))) }
        ensures memory { IfErr result (OnNoMemory (IsLoadCut (image_at S.Start) (storage_of self.old) (storage_of self.new))) }
    {
        self.calls.rise();
        match self.storage.looks(alloc) {
            Ok(looks) => into.append(looks.as_slice())?,
            Err(fault) => return Err(self.counted(fault)),
        }
        Ok(())
    }

    /// Puts a look into the file. As long as the disk returned what was written, a fault is reported only if the file isn't open
    /// then or a statement gave an error.
    fn append(&mut self, alloc: Global, look: &Look) -> Result<(), KeeperFault>
        ensures cause { IsCaused (fault_count self.old) (fault_count self.new) result }
        ensures turn { call_count self.new ≡ call_count self.old + 1 }
        ensures one { OnOk result (PutsOne (image_at S.Start) (storage_of self.old) (storage_of self.new) look.now) }
        ensures look { OnOk result (IsAppended (image_at S.Start) (storage_of self.old) (storage_of self.new) look.now) }
        ensures why { IfErr result (OnFault (IsAppendRefused (image_at S.Start) (storage_of self.old) (storage_of self.new) look.now)) }
        ensures memory { IfErr result (OnNoMemory (IsAppendCut (image_at S.Start) (storage_of self.old) (storage_of self.new) look.now)) }
    {
        self.calls.rise();
        match self.storage.keep(alloc, look) {
            Ok(()) => Ok(()),
            Err(fault) => Err(self.counted(fault)),
        }
    }
}
