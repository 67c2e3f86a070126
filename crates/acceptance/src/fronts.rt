//! Runs over the front parts of a case or of a file.
use crate::endings::Ended;
use crate::findings::Findings;
use crate::plan::Plan;
use crate::rows::Row;
use crate::runs::Given;
use anyhow::{Context, Result, bail};
use std::alloc::Global;

/// The input of which a front part is given.
#[derive(Clone, Copy, PartialEq, Eq, Debug)]
enum Part {
    Case,
    File,
}

/// How many runs over front parts, the empty one and the whole among them, end with each status, and the beginning of each line
/// that reports a refusal.
#[derive(Drop)]
pub struct Fronts<'a> {
    part: Part,
    counts: Vec<(u8, usize)>,
    begins: &'a [u8],
}

impl<'a> Fronts<'a> {
    /// Reads `case STATUS:COUNT ..` or `file STATUS:COUNT ..`; `begins` are the bytes below the line.
    pub fn read(alloc: Global, text: &str, begins: &'a [u8]) -> Result<Fronts<'a>> {
        let (part, rest) = text.split_once(' ').context("how many?")?;
        let part = match part {
            "case" => Part::Case,
            "file" => Part::File,
            _ => bail!("fronts of what?"),
        };
        let mut counts = Vec::new(alloc);
        for word in rest.split_whitespace() {
            let (status, count) = word.split_once(':').context("no count")?;
            counts.push((status.parse::<u8>()?, count.parse::<usize>()?))?;
        }
        Ok(Fronts {
            part,
            counts,
            begins,
        })
    }

    /// Returns the bytes of which the front parts are taken.
    fn bytes<'b>(&self, row: &Row<'b>) -> Result<&'b [u8]> {
        match self.part {
            Part::Case => row.case.context("no case"),
            Part::File => row.file.context("no file"),
        }
    }

    /// Runs over each front part.
    pub fn run(&self, alloc: Global, findings: &mut Findings, row: &Row) -> Result<()> {
        let bytes = self.bytes(row)?;
        let mut statuses = Vec::new(alloc);
        for length in 0..=bytes.len() {
            let front = bytes.get(..length);
            let given = match self.part {
                Part::Case => Given {
                    case: front,
                    ..row.given()
                },
                Part::File => Given {
                    file: front,
                    ..row.given()
                },
            };
            let ended = findings.run(&given, &Plan::whole())?;
            self.expect_line(findings, row, length, &ended)?;
            statuses.push(ended.status)?;
        }
        self.expect_counts(findings, row, statuses.as_slice())
    }

    /// Reports a run over a front part that ends with another status than 0 and 1 and does not print exactly one line that begins
    /// as required.
    fn expect_line(
        &self,
        findings: &mut Findings,
        row: &Row,
        length: usize,
        ended: &Ended,
    ) -> Result<()> {
        let printed = ended.printed.as_slice();
        let ends = printed.iter().filter(|byte| **byte == b'\n').count();
        let is_line = ends == 1 && printed.ends_with(b"\n") && printed.starts_with(self.begins);
        if ended.status > 1 && !is_line {
            let what = printed.escape_ascii();
            findings.report(
                row,
                format_args!("the front of {length} bytes prints {what}"),
            )?;
        }
        Ok(())
    }

    /// Reports if the numbers of runs that end with each status, or their sum, aren't as required.
    fn expect_counts(&self, findings: &mut Findings, row: &Row, statuses: &[u8]) -> Result<()> {
        let mut all: usize = 0;
        for (status, wanted) in self.counts.iter().copied() {
            let came = statuses.iter().filter(|other| **other == status).count();
            if came != wanted {
                findings.report(
                    row,
                    format_args!("fronts with status {status}: wanted {wanted}, came {came}"),
                )?;
            }
            all = all.saturating_add(wanted);
        }
        let came = statuses.len();
        if came != all {
            findings.report(row, format_args!("fronts: wanted {all}, came {came}"))?;
        }
        Ok(())
    }
}
