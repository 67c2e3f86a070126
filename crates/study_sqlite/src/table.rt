//! The table of looks in a file: its statements, and what each did by what the connection showed before and after.
ghost use Rattle.std.specs.Prelude.{[], ◌∷◌, Contains, IfOk, IfErr, OnOk, IsUtf8};
ghost use Rattle.std.specs.List.{AllZip};
ghost use Rattle.sqlite.specs.Files.{file_state, IsOpened};
ghost use Rattle.sqlite.specs.Held.{state};
ghost use Rattle.sqlite.specs.Start.{FindsIn};
ghost use Rattle.sqlite.specs.WalFiles.{image_at};
ghost use Rattle.sqlite.specs.State.{HasCleanDisk, Executes};
ghost use Rattle.sqlite.specs.declared.types.Value.TheVariants.{Int, Text as SqlText};
ghost use Rattle.study_sqlite.specs.FileFaults.{OnRefusal, OnMemory};
ghost use Rattle.study_sqlite.specs.Statements.{
  make_sql,
  put_sql,
  values_of,
  IsShownAs,
  ShowsNoLook,
  Ran,
  RanInto,
  ShowedRows,
  AreRowsRefused,
  AreRowsCut,
};
ghost use Rattle.study_sqlite.specs.Storing.{IsCopiedTo, IsCloseRefused};

use crate::{FileFault, LookRow};
use field_core::{List, Text};
use sqlite::{Alter, Connection, Error, FileFrom, FileStore, Files, Row, Start, params};
use std::alloc::Global;
use std::str;

/// A connection to a file that held what `S` names as it was opened.
pub type FileConnection<S> = Connection<FileStore<FileFrom<S>>>;

/// The name of a file that isn't open yet.
#[derive(Drop)]
pub struct FileName<S: Start> {
    rt: HostRuntime,
    path: String,
    start: S,
}

impl<S: Start> FileName<S> {
    ghost use Rattle.std.specs.Prelude.{◌≡◌, string_bytes};
    ghost use Rattle.study_sqlite.specs.Naming.{path_of};

    /// Returns the name of the file at a path.
    pub fn new(rt: &HostRuntime, path: String, start: S) -> FileName<S>
        ensures { path_of result ≡ string_bytes path }
    {
        FileName {
            rt: *rt,
            path,
            start,
        }
    }

    /// Opens the file, and makes it if it isn't there.
    pub fn open(self) -> Result<FileConnection<S>, FileFault>
        ensures opened { IfOk result (λ connection. HasCleanDisk (file_state connection) → IsOpened connection) }
        ensures found { IfOk result (λ connection. HasCleanDisk (file_state connection)
            → FindsIn (image_at S.Start) (file_state connection)) }
    {
        let FileName { rt, path, start } = self;
        match Connection::open_from(&rt, path.as_str(), false, start) {
            Ok(connection) => Ok(connection),
            Err((error, _)) => Err(FileFault::from(error)),
        }
    }
}

/// Makes the table if it isn't there. As long as the disk returned what was written, it is refused only if the statement gives
/// an error.
pub fn make<S: Alter>(connection: &mut Connection<S>) -> Result<(), FileFault>
    ensures clean { HasCleanDisk (state S.Store connection.new) → HasCleanDisk (state S.Store connection.old) }
    ensures made { HasCleanDisk (state S.Store connection.new)
        → OnOk result (Ran (state S.Store connection.old) (state S.Store connection.new) make_sql []) }
    ensures why { HasCleanDisk (state S.Store connection.new)
        → IfErr result (RanInto (state S.Store connection.old) (state S.Store connection.new) make_sql []) }
{
    connection.execute(
        "CREATE TABLE IF NOT EXISTS looks (place INTEGER PRIMARY KEY, hypothesis INTEGER NOT NULL, stage INTEGER NOT NULL, p TEXT NOT NULL, UNIQUE (hypothesis, stage))",
        &[],
    )?;
    Ok(())
}

/// Returns all rows, in the order in which they were put there. It is refused only if the query gives an error, or for a row
/// that is not the row of a look.
pub fn rows<S: Alter>(
    alloc: Global,
    connection: &mut Connection<S>,
) -> Result<List<LookRow>, FileFault>
    ensures clean { HasCleanDisk (state S.Store connection.new) → HasCleanDisk (state S.Store connection.old) }
    ensures shown { HasCleanDisk (state S.Store connection.new)
        → IfOk result (ShowedRows (state S.Store connection.old) (state S.Store connection.new)) }
    ensures why { HasCleanDisk (state S.Store connection.new)
        → IfErr result (OnRefusal (AreRowsRefused (state S.Store connection.old) (state S.Store connection.new))) }
    ensures memory { HasCleanDisk (state S.Store connection.new)
        → IfErr result (OnMemory (AreRowsCut (state S.Store connection.old) (state S.Store connection.new))) }
{
    let found = connection.query_all("SELECT hypothesis, stage, p FROM looks ORDER BY place", &[])?;
    look_rows(alloc, found.as_slice())
}

/// Returns the values of each row of an answer. It is refused only for a row that is not the row of a look.
fn look_rows(alloc: Global, answer: &[Row]) -> Result<List<LookRow>, FileFault>
    ensures shown { IfOk result (AllZip IsShownAs answer.now) }
    ensures why { IfErr result (OnRefusal ((shown : _) × Contains answer.now shown × ShowsNoLook shown)) }
{
    let mut rows = List::new(alloc);
    for at in 0..answer.len() {
        rows.push(look_row(alloc, &answer[at])?)?;
    }
    Ok(rows)
}

/// Returns the values of a row, which is refused only if it is not the row of a look.
fn look_row(alloc: Global, row: &Row) -> Result<LookRow, FileFault>
    ensures shown { IfOk result (IsShownAs row.now) }
    ensures why { IfErr result (OnRefusal (ShowsNoLook row.now)) }
{
    let hypothesis: i64 = row.get(0)?;
    let stage: i64 = row.get(1)?;
    let p: String = row.get(2)?;
    Ok(LookRow {
        hypothesis,
        stage,
        p: Text::copy(alloc, p.as_bytes())?,
    })
}

/// Puts a row after the others. As long as the disk returned what was written, it is refused only if the statement gives an
/// error.
pub fn put<S: Alter>(connection: &mut Connection<S>, row: &LookRow) -> Result<(), FileFault>
    requires { IsUtf8 row.now.p }
    ensures clean { HasCleanDisk (state S.Store connection.new) → HasCleanDisk (state S.Store connection.old) }
    ensures ran { HasCleanDisk (state S.Store connection.new)
        → OnOk result (Ran (state S.Store connection.old) (state S.Store connection.new) put_sql (values_of row.now)) }
    ensures why { HasCleanDisk (state S.Store connection.new)
        → IfErr result (RanInto (state S.Store connection.old) (state S.Store connection.new) put_sql (values_of row.now)) }
{
    let Ok(p) = str::from_utf8(row.p.as_bytes()) else {
        unreachable!()
    };
    put_values(connection, row.hypothesis, row.stage, p)?;
    Ok(())
}

/// Puts a row of these values after the others.
fn put_values<S: Alter>(
    connection: &mut Connection<S>,
    hypothesis: i64,
    stage: i64,
    p: &str,
) -> Result<usize, Error>
    ensures clean { HasCleanDisk (state S.Store connection.new) → HasCleanDisk (state S.Store connection.old) }
    ensures runs { HasCleanDisk (state S.Store connection.new)
        → Executes put_sql (Int hypothesis ∷ Int stage ∷ SqlText p.now ∷ []) (state S.Store connection.old)
        (state S.Store connection.new) result }
{
    connection.execute(
        "INSERT INTO looks (hypothesis, stage, p) VALUES (?1, ?2, ?3)",
        params![hypothesis, stage, p],
    )
}

/// Copies the log into the file, and gives both back; they are closed when they are dropped. The last commit is in the file
/// then, as long as the disk returned what was written. It is refused only for an error of the connection's close.
pub fn close<S: Start>(connection: FileConnection<S>) -> Result<Files<FileFrom<S>>, FileFault>
    ensures copied { IfOk result (IsCopiedTo connection) }
    ensures why { IfErr result (OnRefusal (IsCloseRefused connection)) }
{
    match connection.close_files() {
        Ok(files) => Ok(files),
        Err((error, _)) => Err(FileFault::from(error)),
    }
}
