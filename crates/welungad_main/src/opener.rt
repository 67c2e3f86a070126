//! The files that the words name, opened.
use crate::file_at::FileAt;
use field_core::NoMemory;
use graph_io::StdSource;
use program::{NotOpened, Opener};
use std::{fs, io};
use study_sqlite::{FileKeeper, Start};

/// An opener of files at paths, and of one store, whose file held what `S` names before the call. Contracts know the paths. They
/// know nothing of what a file holds that is read.
#[derive(Drop)]
pub struct FileOpener<S: Start> {
    rt: HostRuntime,
    start: Option<S>,
}

impl<S: Start> FileOpener<S> {
    /// Returns an opener.
    pub fn new(rt: &HostRuntime, start: S) -> FileOpener<S> {
        FileOpener {
            rt: *rt,
            start: Some(start),
        }
    }
}

impl<S: Start> Opener for FileOpener<S> {
    ghost use Rattle.std.specs.Prelude.{◌≡◌, ⊤, None, string_bytes};
    ghost use Rattle.study_sqlite.specs.Storing.{storage_of, IsUnopenedAt};
    ghost use Rattle.welungad_main.specs.Files.{path_of};

    type File = FileAt<StdSource<fs::File>>;

    type Store = FileKeeper<S>;

    ghost does = { λ _ _ _. ⊤ };

    ghost bytes_at = { λ _ _. None };

    ghost may_refuse = { λ _ _. ⊤ };

    ghost looks_at = { λ _ _. None };

    ghost is_file_at = { λ _ path file. path_of file ≡ path };

    ghost is_store_at = { λ _ path store. IsUnopenedAt path (storage_of store) };

    fn open_file(&mut self, path: &str) -> Result<FileAt<StdSource<fs::File>>, NotOpened> {
        let path = match String::from_str(self.rt.alloc(), path) {
            Ok(path) => path,
            Err(_) => return Err(NotOpened::NoMemory),
        };
        match FileAt::open(&self.rt, path) {
            Ok(file) => Ok(file),
            Err(error) if error.kind() == io::ErrorKind::OutOfMemory => Err(NotOpened::NoMemory),
            Err(_) => Err(NotOpened::Refused),
        }
    }

    fn close_file(&mut self, _path: &str, _file: FileAt<StdSource<fs::File>>) {}

    /// Returns the store at a path. Its file is opened when looks are first requested. A second store, which no call of the program
    /// requests, is refused as out of memory, since `S` names what one file held.
    fn open_store(&mut self, path: &str) -> Result<FileKeeper<S>, NoMemory> {
        let Ok(path) = String::from_str(self.rt.alloc(), path) else {
            return Err(NoMemory);
        };
        match self.start.take() {
            Some(start) => Ok(FileKeeper::at(&self.rt, path, start)),
            None => Err(NoMemory),
        }
    }

    /// Closes the store. If the log can't be copied into the file, the log keeps the looks.
    fn close_store(&mut self, _path: &str, store: FileKeeper<S>) {
        let _ = store.close();
    }
}
