//! A keeper over files that the tests make.
use crate::looks::{Given, expect, looks_of};
use field_core::List;
use graph_io::{Keeper, KeeperFault, Look, MemoryKeeper};
use std::alloc::{Alloc, Global};
use std::fs;
use std::process::Abort;
use std::rt::Files;
use study_sqlite::table::FileName;
use study_sqlite::{FileConnection, FileKeeper, Unknown, table};

const BEFORE: Given = (9, 9, (1, 50));

const ONE: Given = (0, 1, (1, 50));

const OTHER: Given = (1, 1, (1, 50));

const LATER: Given = (3, 2, (1, 50));

/// Makes an empty folder, and removes first what was there.
pub fn new_folder(rt: &(impl Abort + Alloc + Files), folder: &str) {
    let _ = fs::remove_dir_all(rt, folder);
    fs::create_dir(rt, folder).expect(rt, folder);
}

pub fn remove_folder(rt: &(impl Abort + Alloc + Files), folder: &str) {
    fs::remove_dir_all(rt, folder).expect(rt, folder);
}

fn copy(rt: &(impl Abort + Files), from: &str, to: &str) {
    fs::copy(rt, from, to).expect(rt, from);
}

/// Whether a file is there.
fn is_there(rt: &impl Files, path: &str) -> bool {
    fs::metadata(rt, path).is_ok()
}

/// Returns a keeper over the file at a path, or nothing when out of memory.
pub fn keeper_at(rt: &HostRuntime, path: &str) -> Option<FileKeeper<Unknown>> {
    let path = String::from_str(rt.alloc(), path).ok()?;
    Some(FileKeeper::at(rt, path, Unknown))
}

/// Opens the file at a path, unless that is refused.
fn opened(rt: &HostRuntime, path: &str) -> Option<FileConnection<Unknown>> {
    let path = String::from_str(rt.alloc(), path).ok()?;
    FileName::new(rt, path, Unknown).open().ok()
}

/// Returns a keeper over a file that is opened and has the table, unless one of these is refused.
fn keeper_over(rt: &HostRuntime, path: &str) -> Option<FileKeeper<Unknown>> {
    let mut connection = opened(rt, path)?;
    table::make(&mut connection).ok()?;
    Some(FileKeeper::new(connection))
}

/// Puts looks into a file, up to the first that its keeper refuses.
fn put(alloc: Global, keeper: &mut FileKeeper<Unknown>, looks: &[Look]) -> Result<(), KeeperFault> {
    for look in looks {
        keeper.append(alloc, look)?;
    }
    Ok(())
}

/// Returns a keeper in memory with these looks, unless it refuses one.
fn memory_of(alloc: Global, looks: &[Look]) -> Option<MemoryKeeper> {
    let mut memory = MemoryKeeper::new(List::new(alloc));
    for look in looks {
        memory.append(alloc, look).ok()?;
    }
    Some(memory)
}

/// Puts looks into a file through a keeper of its own, and returns the keeper's answer, unless it can't be made or closed.
fn put_at(rt: &HostRuntime, path: &str, given: &[Given]) -> Option<Result<(), KeeperFault>> {
    let looks = looks_of(rt.alloc(), given)?;
    let mut keeper = keeper_at(rt, path)?;
    let kept = put(rt.alloc(), &mut keeper, looks.as_slice());
    keeper.close().ok()?;
    Some(kept)
}

/// Appends the looks of a file to others through a keeper of its own, and returns the keeper's answer, unless it can't be made
/// or closed.
fn load_at(
    rt: &HostRuntime,
    path: &str,
    looks: &mut List<Look>,
) -> Option<Result<(), KeeperFault>> {
    let mut keeper = keeper_at(rt, path)?;
    let loaded = keeper.load(rt.alloc(), looks);
    keeper.close().ok()?;
    Some(loaded)
}

/// Whether a list of one look becomes this list when the looks of a file are appended to it.
fn holds(rt: &HostRuntime, path: &str, given: &[Given]) -> Option<bool> {
    let wanted = looks_of(rt.alloc(), given)?;
    let mut looks = looks_of(rt.alloc(), &[BEFORE])?;
    let loaded = load_at(rt, path, &mut looks)?;
    Some(loaded.is_ok() && looks.as_slice() == wanted.as_slice())
}

/// Whether the looks of a file are refused with a fault, and a list of one look gets no further look.
fn is_refused(rt: &HostRuntime, path: &str) -> Option<bool> {
    let mut looks = looks_of(rt.alloc(), &[BEFORE])?;
    let loaded = load_at(rt, path, &mut looks)?;
    Some(loaded == Err(KeeperFault::Fault) && looks.len() == 1)
}

#[test]
fn looks_are_kept_in_their_order(rt: HostRuntime) {
    let path = "kept_test/looks.db";
    new_folder(&rt, "kept_test");
    assert!(rt; put_at(&rt, path, &[LATER, ONE]) == Some(Ok(())));
    assert!(rt; holds(&rt, path, &[BEFORE, LATER, ONE]) == Some(true));
    remove_folder(&rt, "kept_test");
}

#[test]
fn a_keeper_over_an_open_file_keeps_looks(rt: HostRuntime) {
    let path = "open_test/looks.db";
    new_folder(&rt, "open_test");
    let looks = looks_of(rt.alloc(), &[LATER, ONE]).expect(&rt, "looks");
    let mut keeper = keeper_over(&rt, path).expect(&rt, "a keeper");
    assert!(rt; put(rt.alloc(), &mut keeper, looks.as_slice()).is_ok());
    let mut loaded = List::new(rt.alloc());
    assert!(rt; keeper.load(rt.alloc(), &mut loaded).is_ok());
    assert!(rt; loaded.as_slice() == looks.as_slice());
    assert!(rt; keeper.close().is_ok());
    assert!(rt; holds(&rt, path, &[BEFORE, LATER, ONE]) == Some(true));
    remove_folder(&rt, "open_test");
}

#[test]
fn a_look_is_kept_once(rt: HostRuntime) {
    let path = "once_test/looks.db";
    new_folder(&rt, "once_test");
    assert!(rt; put_at(&rt, path, &[ONE, ONE]) == Some(Err(KeeperFault::Fault)));
    assert!(rt; holds(&rt, path, &[BEFORE, ONE]) == Some(true));
    remove_folder(&rt, "once_test");
}

#[test]
fn what_is_no_file_of_looks_is_refused(rt: HostRuntime) {
    let text = b"hypothesis,stage,p\n0,1,1/50\n".as_slice();
    new_folder(&rt, "refused_test");
    fs::write(&rt, "refused_test/text", text).expect(&rt, "written");
    assert!(rt; is_refused(&rt, "refused_test/text") == Some(true));
    let read = fs::read(&rt, "refused_test/text").expect(&rt, "read");
    assert!(rt; read.as_slice() == text);
    assert!(rt; is_refused(&rt, "refused_test") == Some(true));
    assert!(rt; is_refused(&rt, "refused_test/missing/looks.db") == Some(true));
    remove_folder(&rt, "refused_test");
}

#[test]
fn a_file_is_made_at_the_first_call(rt: HostRuntime) {
    let path = "made_test/looks.db";
    new_folder(&rt, "made_test");
    let keeper = keeper_at(&rt, path).expect(&rt, "a keeper");
    assert!(rt; !is_there(&rt, path));
    assert!(rt; keeper.close().is_ok());
    assert!(rt; !is_there(&rt, path));
    assert!(rt; holds(&rt, path, &[BEFORE]) == Some(true));
    assert!(rt; is_there(&rt, path));
    remove_folder(&rt, "made_test");
}

/// Whether a file is refused while it is open, a log beside it holds its looks then, and closing puts them into the file.
#[test]
fn a_closed_file_holds_its_looks(rt: HostRuntime) {
    let path = "closed_test/looks.db";
    new_folder(&rt, "closed_test");
    let looks = looks_of(rt.alloc(), &[ONE, OTHER]).expect(&rt, "looks");
    let mut keeper = keeper_at(&rt, path).expect(&rt, "a keeper");
    assert!(rt; put(rt.alloc(), &mut keeper, looks.as_slice()).is_ok());
    assert!(rt; is_refused(&rt, path) == Some(true));
    copy(&rt, path, "closed_test/open.db");
    copy(&rt, "closed_test/looks.db-wal", "closed_test/open.db-wal");
    assert!(rt; holds(&rt, "closed_test/open.db", &[BEFORE, ONE, OTHER]) == Some(true));
    assert!(rt; keeper.close().is_ok());
    copy(&rt, path, "closed_test/closed.db");
    assert!(rt; holds(&rt, "closed_test/closed.db", &[BEFORE, ONE, OTHER]) == Some(true));
    assert!(rt; holds(&rt, path, &[BEFORE, ONE, OTHER]) == Some(true));
    remove_folder(&rt, "closed_test");
}

/// Returns the looks at the places `from..to` of a hundred looks, of ten hypotheses at ten stages, ordered neither by hypothesis
/// nor by stage.
fn mixed(alloc: Global, from: u32, to: u32) -> Option<List<Given>> {
    let mut mixed = List::new(alloc);
    for at in from..to {
        let place = at.wrapping_mul(37) % 100;
        let look = (place / 10, place % 10 + 1, (i128::from(at), 1000));
        mixed.push(look).ok()?;
    }
    Some(mixed)
}

#[test]
fn two_runs_keep_what_one_keeps_in_memory(rt: HostRuntime) {
    let path = "mixed_test/looks.db";
    new_folder(&rt, "mixed_test");
    let front = mixed(rt.alloc(), 0, 61).expect(&rt, "looks");
    assert!(rt; put_at(&rt, path, front.as_slice()) == Some(Ok(())));
    let rest = mixed(rt.alloc(), 61, 100).expect(&rt, "looks");
    assert!(rt; put_at(&rt, path, rest.as_slice()) == Some(Ok(())));
    let all = mixed(rt.alloc(), 0, 100).expect(&rt, "looks");
    let looks = looks_of(rt.alloc(), all.as_slice()).expect(&rt, "looks");
    let memory = memory_of(rt.alloc(), looks.as_slice()).expect(&rt, "a keeper");
    let mut loaded = List::new(rt.alloc());
    assert!(rt; load_at(&rt, path, &mut loaded) == Some(Ok(())));
    assert!(rt; loaded.len() == 100);
    assert!(rt; loaded.as_slice() == memory.looks());
    remove_folder(&rt, "mixed_test");
}

/// Makes a file with one row of these values, as SQL writes them.
fn write_row(rt: &HostRuntime, path: &str, values: &str) -> Option<()> {
    let statement = format!(in rt.alloc();
        "INSERT INTO looks (hypothesis, stage, p) VALUES ({values})"
    ).ok()?;
    let mut connection = opened(rt, path)?;
    let made = table::make(&mut connection);
    let written = connection.execute(&statement, &[]);
    table::close(connection).ok()?;
    made.ok()?;
    written.ok()?;
    Some(())
}

/// Whether a file with one row of these values is refused.
fn refuses(rt: &HostRuntime, path: &str, values: &str) -> Option<bool> {
    write_row(rt, path, values)?;
    is_refused(rt, path)
}

/// Values of other types than those of a row.
const KINDS: &[&str] = &["0, 'abc', '1/50'", "0, 1.5, '1/50'", "0, 1, x'312F3530'"];

#[test]
fn rows_of_other_kinds_are_faults(rt: HostRuntime) {
    let path = "kinds_test/looks.db";
    for values in KINDS {
        new_folder(&rt, "kinds_test");
        expect(&rt, refuses(&rt, path, values) == Some(true), values);
    }
    remove_folder(&rt, "kinds_test");
}

/// Values that are not those of a look.
const OTHERS: &[&str] = &["0, 1, '2/100'", "-1, 1, '1/50'"];

#[test]
fn rows_of_no_look_are_faults(rt: HostRuntime) {
    let path = "rows_test/looks.db";
    for values in OTHERS {
        new_folder(&rt, "rows_test");
        expect(&rt, refuses(&rt, path, values) == Some(true), values);
    }
    new_folder(&rt, "rows_test");
    write_row(&rt, path, "0, 1, '1/50'").expect(&rt, "written");
    assert!(rt; holds(&rt, path, &[BEFORE, ONE]) == Some(true));
    remove_folder(&rt, "rows_test");
}
