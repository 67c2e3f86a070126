//! The whole program over a file and a store in memory.
ghost use Rattle.std.specs.Prelude.{◌≡◌, IfOk};

use crate::studies::{CASE, FIRST, FIRST_TEXT};
use field_core::{List, NoMemory};
use graph_io::{Look, MemoryKeeper, MemorySink, MemorySource};
use program::{NotOpened, Opener, run_program};
use std::alloc::Global;
use std::process::ExitCode;

/// An opener of one file and one store, whatever their paths, with a line for each request.
#[derive(Drop)]
struct Shelf {
    alloc: Global,
    file: List<u8>,
    has_file: bool,
    looks: List<Look>,
    asked: List<u8>,
}

/// Returns a copy of these items.
fn copy_of<T: Copy>(alloc: Global, items: &[T]) -> Result<List<T>, NoMemory>
    ensures { IfOk result (λ copy. copy ≡ items.now) }
{
    let mut copy = List::new(alloc);
    copy.append(items)?;
    Ok(copy)
}

/// Appends a line with a word and a path to the others.
fn note(asked: &mut List<u8>, word: &[u8], path: &str) -> Result<(), NoMemory> {
    asked.append(word)?;
    asked.append(path.as_bytes())?;
    asked.append(b"\n")
}

impl Opener for Shelf {
    ghost use Rattle.std.specs.Prelude.{⊤, Some};

    type File = MemorySource;

    type Store = MemoryKeeper;

    ghost does = { λ _ _ _. ⊤ };

    ghost bytes_at = { λ s _. Some s.file };

    ghost may_refuse = { λ _ _. ⊤ };

    ghost looks_at = { λ s _. Some s.looks };

    ghost is_file_at = { λ _ _ _. ⊤ };

    ghost is_store_at = { λ _ _ _. ⊤ };

    fn open_file(&mut self, path: &str) -> Result<MemorySource, NotOpened> {
        if note(&mut self.asked, b"file ", path).is_err() {
            return Err(NotOpened::NoMemory);
        }
        if !self.has_file {
            return Err(NotOpened::Refused);
        }
        match copy_of(self.alloc, self.file.as_slice()) {
            Ok(bytes) => Ok(MemorySource::new(bytes)),
            Err(NoMemory) => Err(NotOpened::NoMemory),
        }
    }

    fn close_file(&mut self, path: &str, _file: MemorySource) {
        let _ = note(&mut self.asked, b"back ", path);
    }

    fn open_store(&mut self, path: &str) -> Result<MemoryKeeper, NoMemory> {
        note(&mut self.asked, b"store ", path)?;
        Ok(MemoryKeeper::new(copy_of(self.alloc, self.looks.as_slice())?))
    }

    fn close_store(&mut self, path: &str, store: MemoryKeeper) {
        let _ = note(&mut self.asked, b"close ", path);
        if let Ok(looks) = copy_of(self.alloc, store.looks()) {
            self.looks = looks;
        }
    }
}

/// A call and its expected end: the status, the text, the requests, and how many looks are kept then.
#[derive(Clone, Copy)]
struct Row<'a> {
    words: &'a [&'a str],
    case: &'a [u8],
    file: Option<&'a [u8]>,
    status: u8,
    text: &'a [u8],
    asked: &'a [u8],
    looks: usize,
}

/// Returns the words of a call, or nothing when out of memory.
fn words_of(alloc: Global, given: &[&str]) -> Option<Vec<String>> {
    let mut words = Vec::new(alloc);
    for word in given {
        words.push(String::from_str(alloc, word).ok()?).ok()?;
    }
    Some(words)
}

/// Returns a shelf with the file of a row, or nothing when out of memory.
fn shelf_of(alloc: Global, row: &Row) -> Option<Shelf> {
    Some(Shelf {
        alloc,
        file: copy_of(alloc, row.file.unwrap_or(b"".as_slice())).ok()?,
        has_file: row.file.is_some(),
        looks: List::new(alloc),
        asked: List::new(alloc),
    })
}

/// Whether an exit code is that of a status; `None` if out of memory. Codes have no equality, so their printed forms are compared.
fn has_status(alloc: Global, code: ExitCode, status: u8) -> Option<bool> {
    let ended = format!(in alloc; "{code:?}").ok()?;
    let wanted = format!(in alloc; "{:?}", ExitCode::from(status)).ok()?;
    Some(ended.as_str() == wanted.as_str())
}

/// Whether a call ends as its row expects; `None` if out of memory.
fn is_done(alloc: Global, row: &Row) -> Option<bool> {
    let words = words_of(alloc, row.words)?;
    let mut shelf = shelf_of(alloc, row)?;
    let mut case = MemorySource::new(copy_of(alloc, row.case).ok()?);
    let mut out = MemorySink::with_room(alloc, 4096).ok()?;
    let code = run_program(alloc, words.as_slice(), &mut shelf, &mut case, &mut out);
    let is_told = has_status(alloc, code, row.status)? && out.held() == row.text;
    let is_asked = shelf.asked.as_slice() == row.asked;
    Some(is_told && is_asked && shelf.looks.len() == row.looks)
}

/// Whether the looks of a study are put into the store at its path.
#[test]
fn a_study_opens_its_commands_and_its_store(rt: HostRuntime) {
    let row = Row {
        words: &["study", "commands.txt", "--store", "looks.db"],
        case: CASE,
        file: Some(FIRST),
        status: 0,
        text: FIRST_TEXT,
        asked: b"file commands.txt\nstore looks.db\nclose looks.db\nback commands.txt\n",
        looks: 2,
    };
    assert!(rt; is_done(rt.alloc(), &row) == Some(true));
}

/// Whether a study without a store opens only its commands.
#[test]
fn a_study_without_a_store_opens_its_commands(rt: HostRuntime) {
    let row = Row {
        words: &["study", "commands.txt"],
        case: CASE,
        file: Some(FIRST),
        status: 0,
        text: FIRST_TEXT,
        asked: b"file commands.txt\nback commands.txt\n",
        looks: 0,
    };
    assert!(rt; is_done(rt.alloc(), &row) == Some(true));
}

/// A case whose one hypothesis is kept.
const KEPT: &[u8] = b"alpha 0.05
hypotheses H1
p 0.9
weights 1
";

/// Whether a check opens its document.
#[test]
fn a_check_opens_its_document(rt: HostRuntime) {
    let row = Row {
        words: &["check", "proof.txt"],
        case: KEPT,
        file: Some(b"evidence 2\nkeep H1\nend\n".as_slice()),
        status: 0,
        text: b"yes\nlisted\nkept H1\nend\n",
        asked: b"file proof.txt\nback proof.txt\n",
        looks: 0,
    };
    assert!(rt; is_done(rt.alloc(), &row) == Some(true));
}

/// Whether a file that can't be opened is reported as a fault of the reading.
#[test]
fn a_file_that_is_refused_is_a_read_fault(rt: HostRuntime) {
    let row = Row {
        words: &["check", "proof.txt"],
        case: KEPT,
        file: None,
        status: 6,
        text: b"read fault\n",
        asked: b"file proof.txt\n",
        looks: 0,
    };
    assert!(rt; is_done(rt.alloc(), &row) == Some(true));
}

/// Whether commands that can't be opened are reported as a fault of the reading.
#[test]
fn commands_that_are_refused_are_a_read_fault(rt: HostRuntime) {
    let row = Row {
        words: &["study", "commands.txt"],
        case: CASE,
        file: None,
        status: 6,
        text: b"read fault\n",
        asked: b"file commands.txt\n",
        looks: 0,
    };
    assert!(rt; is_done(rt.alloc(), &row) == Some(true));
}

/// Whether commands that can't be opened are a fault of the reading in a study with a store, too, and no look is kept.
#[test]
fn no_look_of_commands_that_are_refused_is_kept(rt: HostRuntime) {
    let row = Row {
        words: &["study", "commands.txt", "--store", "looks.db"],
        case: CASE,
        file: None,
        status: 6,
        text: b"read fault\n",
        asked: b"file commands.txt\nstore looks.db\nclose looks.db\n",
        looks: 0,
    };
    assert!(rt; is_done(rt.alloc(), &row) == Some(true));
}

/// Whether a call that names no file opens none.
#[test]
fn a_call_without_a_file_opens_none(rt: HostRuntime) {
    let row = Row {
        words: &["study"],
        case: CASE,
        file: Some(FIRST),
        status: 2,
        text: b"usage: word 2\n",
        asked: b"",
        looks: 0,
    };
    assert!(rt; is_done(rt.alloc(), &row) == Some(true));
}
