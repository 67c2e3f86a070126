//! Findings: what is reported of the runs of a table.
use crate::endings::{Ended, Wanted};
use crate::plan::Plan;
use crate::rows::Row;
use crate::runs::Given;
use anyhow::Result;
use std::alloc::Global;
use std::fmt;
use std::fmt::Write;

/// How many rows and runs of a table there were, and what is reported of those that did not end as expected.
#[derive(Drop)]
pub struct Findings<'a> {
    alloc: Global,
    table: &'a str,
    rows: u64,
    runs: u64,
    reported: String,
}

impl<'a> Findings<'a> {
    /// Returns the findings of the table of this name, of which nothing was run yet.
    pub fn new(alloc: Global, table: &'a str) -> Findings<'a> {
        Findings {
            alloc,
            table,
            rows: 0,
            runs: 0,
            reported: String::new(alloc),
        }
    }

    /// Whether each run ended as expected.
    pub fn is_clean(&self) -> bool {
        self.reported.is_empty()
    }

    /// Counts a row.
    pub fn count_row(&mut self) {
        self.rows = self.rows.saturating_add(1);
    }

    /// Runs, and counts the run.
    pub fn run(&mut self, given: &Given, plan: &Plan) -> Result<Ended> {
        self.runs = self.runs.saturating_add(1);
        given.run(self.alloc, plan)
    }

    /// Runs a row over devices by plan, and reports the run if it doesn't end as wanted.
    pub fn expect(&mut self, row: &Row, plan: &Plan, wanted: &Wanted) -> Result<()> {
        let ended = self.run(&row.given(), plan)?;
        self.compare(row, plan, wanted, &ended)
    }

    /// Reports a run over devices by plan if it didn't end as wanted.
    pub fn compare(
        &mut self,
        row: &Row,
        plan: &Plan,
        wanted: &Wanted,
        ended: &Ended,
    ) -> Result<()> {
        if !wanted.is(ended) {
            self.report(row, plan)?;
            write!(self.reported, "  wanted {wanted}  came {ended}")?;
        }
        Ok(())
    }

    /// Reports something of a row, with the table and the line.
    pub fn report<D: fmt::Display + Drop>(&mut self, row: &Row, what: D) -> Result<()> {
        let (table, line) = (self.table, row.line);
        write!(self.reported, "{table}:{line}: {what}\n")?;
        Ok(())
    }
}

impl fmt::Display for Findings<'_> {
    fn fmt<W: fmt::Write>(&self, f: &mut fmt::Formatter<W>) -> fmt::Result {
        let Findings {
            table,
            rows,
            runs,
            reported,
            ..
        } = self;
        write!(f, "{reported}{table}: {rows} rows, {runs} runs\n")
    }
}
