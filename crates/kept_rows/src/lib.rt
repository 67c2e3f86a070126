//! What three statements do to the table of looks: the one that makes it, the one that puts a row, and the query of its rows.
//!
//! Proved of `make`, `put` and `rows`, over any connection, as long as the disk returned what was written:
//! - `runs`, `shown`: the call ran its one statement, `make_sql`, `put_sql` or `rows_sql`, with the values that it was given.
//! - `make`: `made` (a database without any object has the table then, without rows), `kept` (a table that is there keeps its
//!   rows).
//! - `put`: `put` (the row follows those that were there).
//! - `rows`: `all` (the answer has all rows, in the order in which they were put there), `kept` (the rows stay).
//!
//! Each of these but `runs` and `shown` is about a call that succeeds. `clean` says that a disk that is clean after a call was clean
//! before it.
#![tactic(auto)]

ghost use Rattle.std.specs.Prelude.{[], ◌∷◌, ◌++◌, ◌≡◌, OnOk, IfOk};
ghost use Rattle.sqlite.specs.Held.{state};
ghost use Rattle.sqlite.specs.State.{HasCleanDisk, Executes, Shown};
ghost use Rattle.sqlite.specs.declared.types.Value.TheVariants.{Int, Text};
ghost use Rattle.kept_rows.specs.Table.{HasRows, IsBare, make_sql, put_sql, rows_sql, all_shown, kept};

use sqlite::{Alter, Connection, Error, Row, params};

/// Makes the table if it isn't there. One that is there keeps its rows.
pub fn make<S: Alter>(connection: &mut Connection<S>) -> Result<usize, Error>
    ensures clean { HasCleanDisk (state S.Store connection.new) → HasCleanDisk (state S.Store connection.old) }
    ensures runs { HasCleanDisk (state S.Store connection.new)
        → Executes make_sql [] (state S.Store connection.old) (state S.Store connection.new) result }
    ensures made { HasCleanDisk (state S.Store connection.new)
        → OnOk result (IsBare (state S.Store connection.old) → HasRows (state S.Store connection.new) []) }
    ensures kept { HasCleanDisk (state S.Store connection.new)
        → OnOk result ((rows : _) → HasRows (state S.Store connection.old) rows → HasRows (state S.Store connection.new) rows) }
{
    connection.execute(
        "CREATE TABLE IF NOT EXISTS looks (place INTEGER PRIMARY KEY, hypothesis INTEGER NOT NULL, stage INTEGER NOT NULL, p TEXT NOT NULL, UNIQUE (hypothesis, stage))",
        &[],
    )
}

/// Puts a row of these values after the others.
pub fn put<S: Alter>(
    connection: &mut Connection<S>,
    hypothesis: i64,
    stage: i64,
    p: &str,
) -> Result<usize, Error>
    ensures clean { HasCleanDisk (state S.Store connection.new) → HasCleanDisk (state S.Store connection.old) }
    ensures runs { HasCleanDisk (state S.Store connection.new)
        → Executes put_sql (Int hypothesis ∷ Int stage ∷ Text p.now ∷ []) (state S.Store connection.old)
        (state S.Store connection.new) result }
    ensures put { HasCleanDisk (state S.Store connection.new)
        → OnOk result ((rows : _) → HasRows (state S.Store connection.old) rows
        → HasRows (state S.Store connection.new) (rows ++ kept hypothesis stage p.now ∷ [])) }
{
    run_put(connection, hypothesis, stage, p)
}

fn run_put<S: Alter>(
    connection: &mut Connection<S>,
    hypothesis: i64,
    stage: i64,
    p: &str,
) -> Result<usize, Error>
    ensures clean { HasCleanDisk (state S.Store connection.new) → HasCleanDisk (state S.Store connection.old) }
    ensures runs { HasCleanDisk (state S.Store connection.new)
        → Executes put_sql (Int hypothesis ∷ Int stage ∷ Text p.now ∷ []) (state S.Store connection.old)
        (state S.Store connection.new) result }
{
    connection.execute(
        "INSERT INTO looks (hypothesis, stage, p) VALUES (?1, ?2, ?3)",
        params![hypothesis, stage, p],
    )
}

/// Returns all rows, in the order in which they were put there.
pub fn rows<S: Alter>(connection: &mut Connection<S>) -> Result<Vec<Row>, Error>
    ensures clean { HasCleanDisk (state S.Store connection.new) → HasCleanDisk (state S.Store connection.old) }
    ensures shown { HasCleanDisk (state S.Store connection.new)
        → IfOk result (λ answer. Shown rows_sql [] (state S.Store connection.old) (state S.Store connection.new) answer.items) }
    ensures all { HasCleanDisk (state S.Store connection.new)
        → IfOk result (λ answer. (rows : _) → HasRows (state S.Store connection.old) rows → answer.items ≡ all_shown rows) }
    ensures kept { HasCleanDisk (state S.Store connection.new)
        → OnOk result ((rows : _) → HasRows (state S.Store connection.old) rows → HasRows (state S.Store connection.new) rows) }
{
    connection.query_all("SELECT hypothesis, stage, p FROM looks ORDER BY place", &[])
}
