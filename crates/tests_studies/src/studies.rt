//! Studies whose looks a file keeps from run to run.
use crate::files::{keeper_at, new_folder, remove_folder};
use field_core::List;
use graph_io::{MemorySink, MemorySource};
use std::alloc::Global;
use study_cli::run_study;
use study_sqlite::{FileKeeper, Start};

/// A staged case of two hypotheses. At half the level each stage has 1/80, at the whole level 1/40.
pub const CASE: &[u8] = b"alpha 0.05
hypotheses H1 H2
weights 1/2 1/2
edge H1 H2 1
edge H2 H1 1
stages 2
spend H1 1/2 1/2
spend H2 1/2 1/2
";

const WORDS: &[&str] = &["study", "commands.txt", "--store", "looks.db"];

/// Returns the words of a run, or nothing when out of memory.
fn words(alloc: Global) -> Option<Vec<String>> {
    let mut words = Vec::new(alloc);
    for word in WORDS {
        words.push(String::from_str(alloc, word).ok()?).ok()?;
    }
    Some(words)
}

/// Returns a source of these bytes, or nothing when out of memory.
fn source(alloc: Global, bytes: &[u8]) -> Option<MemorySource> {
    Some(MemorySource::new(List::of(bytes.to_vec(alloc).ok()?)))
}

/// Runs commands on the case over a keeper. Returns the status and what is printed, or nothing when out of memory.
fn run_from<S: Start>(
    alloc: Global,
    keeper: &mut FileKeeper<S>,
    commands: &[u8],
) -> Option<(u8, Vec<u8>)> {
    let words = words(alloc)?;
    let mut case = source(alloc, CASE)?;
    let mut commands = source(alloc, commands)?;
    let mut out = MemorySink::with_room(alloc, 4096).ok()?;
    let words = words.as_slice();
    let status = run_study(alloc, words, &mut case, &mut commands, keeper, &mut out);
    Some((status, out.held().to_vec(alloc).ok()?))
}

/// Runs commands on the case over the file of looks at a path. Returns the status and what is printed, or nothing when
/// out of memory or the file cannot be closed.
fn run_over(rt: &HostRuntime, path: &str, commands: &[u8]) -> Option<(u8, Vec<u8>)> {
    let mut keeper = keeper_at(rt, path)?;
    let ended = run_from(rt.alloc(), &mut keeper, commands);
    keeper.close().ok()?;
    ended
}

/// Whether a run over the file at a path ends with status 0 and prints this text.
fn prints(rt: &HostRuntime, path: &str, commands: &[u8], text: &[u8]) -> Option<bool> {
    let (status, printed) = run_over(rt, path, commands)?;
    Some(status == 0 && printed.as_slice() == text)
}

pub const FIRST: &[u8] = b"look H1 1 0.02
look H2 1 0.03
";

pub const FIRST_TEXT: &[u8] = b"alpha 1/20
records 0
look H1 1 1/50
look H2 1 3/100
end
";

const SECOND: &[u8] = b"look H1 2 0.01
show
";

const SECOND_TEXT: &[u8] = b"alpha 1/20
records 2
look H1 2 1/100
reject H1 stage 2 weight 1/2
show looks 3 rejected H1
end
";

/// Whether the looks of a first run count in a second over the same file.
#[test]
fn a_second_run_begins_with_the_looks_of_the_first(rt: HostRuntime) {
    let path = "runs_test/looks.db";
    new_folder(&rt, "runs_test");
    assert!(rt; prints(&rt, path, FIRST, FIRST_TEXT) == Some(true));
    assert!(rt; prints(&rt, path, SECOND, SECOND_TEXT) == Some(true));
    remove_folder(&rt, "runs_test");
}

/// Commands, none of which is reached.
const OTHER_ROW: &[u8] = b"look H1 1 0.02
show
";

/// Whether a file that keeps no looks is reported as a fault of the keeper, and stays as it was.
#[test]
fn a_file_of_something_else_is_a_fault_of_the_keeper(rt: HostRuntime) {
    let path = "other_test/looks.db";
    new_folder(&rt, "other_test");
    std::fs::write(&rt, path, b"no looks".as_slice()).expect(&rt, "written");
    let ended = run_over(&rt, path, OTHER_ROW);
    let (status, printed) = ended.expect(&rt, "a run");
    assert!(rt; status == 9);
    assert!(rt; printed.as_slice() == b"keeper fault\n".as_slice());
    let read = std::fs::read(&rt, path).expect(&rt, "read");
    assert!(rt; read.as_slice() == b"no looks".as_slice());
    remove_folder(&rt, "other_test");
}
