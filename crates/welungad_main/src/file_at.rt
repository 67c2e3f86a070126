//! A file as a source, with its path.
ghost use Rattle.std.specs.Prelude.{◌≡◌, IfOk};

use graph_io::{Failed, Source, StdSource};
use std::{fs, io};

/// A source, and the path at which it was opened.
#[derive(Drop)]
pub struct FileAt<S> {
    source: S,
    path: String,
}

impl FileAt<StdSource<fs::File>> {
    ghost use Rattle.graph_io.specs.Adapters.{read_faults, read_calls};
    ghost use Rattle.welungad_main.specs.Files.{path_of, source_of};
    ghost use Rattle.std.specs.Prelude.{string_bytes};

    /// Opens the file at a path. The clause proves which path is kept; that `fs::open` opens the file there is trusted.
    pub fn open(rt: &HostRuntime, path: String) -> io::Result<FileAt<StdSource<fs::File>>>
        ensures path { IfOk result (λ file. path_of file ≡ string_bytes path) }
        ensures faults { IfOk result (λ file. read_faults (source_of file) ≡ 0) }
        ensures calls { IfOk result (λ file. read_calls (source_of file) ≡ 0) }
    {
        let source = StdSource::new(fs::open(rt, path.as_str())?);
        Ok(FileAt { source, path })
    }
}

impl<S: Source> Source for FileAt<S> {
    ghost use Rattle.welungad_main.specs.Files.{source_of};

    ghost left = { λ f. S.left (source_of f) };

    ghost faults = { λ f. S.faults (source_of f) };

    ghost calls = { λ f. S.calls (source_of f) };

    ghost counted = { λ f. S.counted (source_of f) };

    fn take(&mut self, buf: &mut [u8]) -> Result<usize, Failed> {
        self.source.take(buf)
    }
}
