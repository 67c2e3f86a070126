//! The runs of a table.
use crate::blocks::read_blocks;
use crate::counts::Counts;
use crate::devices::Devices;
use crate::endings::{Ended, Wanted};
use crate::findings::Findings;
use crate::plan::Plan;
use crate::printed::Printed;
use crate::rows::{Call, Row, read_rows};
use crate::runs::Given;
use crate::words::words_of;
use anyhow::{Context, Result};
use std::alloc::Global;

/// Runs each row of a table.
pub fn run_table<'a>(alloc: Global, name: &'a str, table: &str) -> Result<Findings<'a>> {
    let blocks = read_blocks(alloc, table)?;
    let rows = read_rows(alloc, blocks.as_slice())?;
    let mut findings = Findings::new(alloc, name);
    for row in &rows {
        findings.count_row();
        let line = row.line;
        run_row(alloc, &mut findings, row).context(format_args!("line {line}"))?;
    }
    Ok(findings)
}

/// Runs a row, and if the run ends as it is to, makes the further runs that the row requires.
fn run_row(alloc: Global, findings: &mut Findings, row: &Row) -> Result<()> {
    let ending = row.ending.context("no end")?;
    let wanted = Wanted {
        status: ending.status,
        printed: ending.printed,
        looks: row.looks.as_slice(),
    };
    let plan = row.plan();
    let ended = findings.run(&row.given(), &plan)?;
    findings.compare(row, &plan, &wanted, &ended)?;
    expect_left(findings, row, &ended)?;
    expect_counts(findings, row, &ended)?;
    if wanted.is(&ended) {
        run_further(alloc, findings, row, &ended)?;
    }
    Ok(())
}

/// Reports if the bytes of the case that aren't taken are more or fewer than the row leaves. If there is no case, no take is to
/// be made.
fn expect_left(findings: &mut Findings, row: &Row, ended: &Ended) -> Result<()> {
    let wanted = row.case.map(|_| row.leaves);
    let came = ended.left;
    if came != wanted {
        findings.report(
            row,
            format_args!("left of the case: wanted {wanted:?}, came {came:?}"),
        )?;
    }
    Ok(())
}

/// Compares the length and the digest of what is printed with those of the row.
fn expect_counts(findings: &mut Findings, row: &Row, ended: &Ended) -> Result<()> {
    if let Some(wanted) = row.counts {
        let came = Counts::of(ended.printed.as_slice());
        if came != wanted {
            findings.report(row, format_args!("printed: wanted {wanted}, came {came}"))?;
        }
    }
    Ok(())
}

/// Makes the further runs that a row requires after a run that ended as it is to.
fn run_further(alloc: Global, findings: &mut Findings, row: &Row, ended: &Ended) -> Result<()> {
    if let Some(text) = row.checked {
        run_check(alloc, findings, row, ended, text)?;
    }
    if let Some(fronts) = &row.fronts {
        fronts.run(alloc, findings, row)?;
    }
    if row.devices {
        let text = ended.printed.as_slice();
        let status = ended.status;
        Devices { row, status, text }.run(findings)?;
    }
    Ok(())
}

/// Reports if `check` does not end with status 0 on what was printed, or does not print this text.
fn run_check(
    alloc: Global,
    findings: &mut Findings,
    row: &Row,
    ended: &Ended,
    text: &[u8],
) -> Result<()> {
    let words = words_of(alloc, "check printed")?;
    let given = Given {
        call: Call::Run,
        words: words.as_slice(),
        file: Some(ended.printed.as_slice()),
        ..row.given()
    };
    let wanted = Wanted {
        status: 0,
        printed: Printed::of(text),
        looks: &[],
    };
    let checked = findings.run(&given, &Plan::whole())?;
    findings.compare(row, &Plan::whole(), &wanted, &checked)
}
