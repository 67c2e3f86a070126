//! Runs of a row over devices that fail, each call in turn.
use crate::endings::Wanted;
use crate::findings::Findings;
use crate::plan::Plan;
use crate::printed::Printed;
use crate::rows::{Call, Row};
use anyhow::Result;

/// The most bytes of a take and of a put if calls fail.
const TAKE: usize = 4;

const PUT: usize = 5;

/// Returns how many takes bring all of these bytes, with the one that finds the end.
fn takes_of(bytes: Option<&[u8]>) -> u64 {
    match bytes {
        Some(bytes) => (bytes.len().div_ceil(TAKE) as u64).saturating_add(1),
        None => 0,
    }
}

/// Returns how many puts take all of these bytes.
fn puts_of(bytes: &[u8]) -> u64 {
    bytes.len().div_ceil(PUT) as u64
}

/// Returns the bytes that this number of first puts take.
fn pieces(bytes: &[u8], puts: u64) -> &[u8] {
    let length = (puts as usize).saturating_mul(PUT);
    bytes.get(..length).unwrap_or(bytes)
}

/// A row, how it ends, and all that it prints.
#[derive(Clone, Copy)]
pub struct Devices<'a> {
    pub row: &'a Row<'a>,
    pub status: u8,
    pub text: &'a [u8],
}

impl Devices<'_> {
    /// Runs the row over devices that move few bytes, and over such as fail.
    pub fn run(&self, findings: &mut Findings) -> Result<()> {
        self.sizes(findings)?;
        self.rooms(findings)?;
        self.takes(findings)?;
        self.calls(findings)?;
        self.puts(findings)
    }

    /// Reports a run that does not end as the row requires.
    fn expect(&self, findings: &mut Findings, plan: &Plan) -> Result<()> {
        let wanted = Wanted {
            status: self.status,
            printed: Printed::of(self.text),
            looks: self.row.looks.as_slice(),
        };
        findings.expect(self.row, plan, &wanted)
    }

    /// Reports a run whose end changes if takes and puts move few bytes, or nearly all.
    fn sizes(&self, findings: &mut Findings) -> Result<()> {
        let case = self.row.case.unwrap_or(b"").len();
        let text = self.text.len();
        for size in [1, 2, 3, case, text] {
            for most in [size.saturating_sub(1), size, size.saturating_add(1)] {
                self.expect(findings, &Plan::of_pieces(most.max(1), most.max(1)))?;
            }
        }
        Ok(())
    }

    /// Compares what a sink holds in the end with what fits into it, for each room up to that of the whole text.
    fn rooms(&self, findings: &mut Findings) -> Result<()> {
        for room in 0..self.text.len() {
            let wanted = Wanted {
                status: 7,
                printed: Printed::of(self.text.get(..room).unwrap_or(self.text)),
                looks: self.row.looks.as_slice(),
            };
            findings.expect(self.row, &Plan::of_room(room), &wanted)?;
        }
        self.expect(findings, &Plan::of_room(self.text.len()))
    }

    /// Lets each take of the case fail in turn, then each take of the file, by itself and together with that of the case. Both
    /// together are reported as one fault.
    fn takes(&self, findings: &mut Findings) -> Result<()> {
        for take in 1..=takes_of(self.row.case) {
            self.read_fault(findings, take, 0)?;
        }
        for take in 1..=takes_of(self.row.file) {
            self.read_fault(findings, 0, take)?;
            self.read_fault(findings, take, take)?;
        }
        Ok(())
    }

    /// Makes a take fail, and then each put of the line that reports it.
    fn read_fault(&self, findings: &mut Findings, case_take: u64, file_take: u64) -> Result<()> {
        let plan = Plan {
            case_take,
            file_take,
            ..Plan::of_pieces(TAKE, PUT)
        };
        self.each_put(findings, &plan, (6, b"read fault\n"), 0)
    }

    /// Returns how many calls of the keeper are made: one for the looks before, and one for each further look.
    fn keeper_calls(&self) -> usize {
        if self.row.call == Call::Study && self.row.has_keeper {
            self.row.looks_more().saturating_add(1)
        } else {
            0
        }
    }

    /// Lets each call of the keeper fail in turn, and then each put of the line that reports it.
    fn calls(&self, findings: &mut Findings) -> Result<()> {
        for before in 0..self.keeper_calls() {
            let plan = Plan {
                keeper_call: (before as u64).saturating_add(1),
                ..Plan::of_pieces(TAKE, PUT)
            };
            let looks = before.saturating_sub(1);
            self.each_put(findings, &plan, (9, b"keeper fault\n"), looks)?;
        }
        Ok(())
    }

    /// Lets each put of the text fail in turn. Each other device would fail at the call after its last one.
    fn puts(&self, findings: &mut Findings) -> Result<()> {
        let plan = Plan {
            case_take: takes_of(self.row.case).saturating_add(1),
            file_take: takes_of(self.row.file).saturating_add(1),
            keeper_call: (self.keeper_calls() as u64).saturating_add(1),
            ..Plan::of_pieces(TAKE, PUT)
        };
        let looks = self.row.looks_more();
        self.each_put(findings, &plan, (self.status, self.text), looks)
    }

    /// Lets each put of a text fail in turn, and then the one after the last, which isn't made. The keeper holds `more` looks
    /// more than before.
    fn each_put(
        &self,
        findings: &mut Findings,
        plan: &Plan,
        (status, text): (u8, &[u8]),
        more: usize,
    ) -> Result<()> {
        let looks = self.row.looks_behind(more);
        let puts = puts_of(text);
        for before in 0..puts {
            let plan = Plan {
                put: before.saturating_add(1),
                ..*plan
            };
            let wanted = Wanted {
                status: 7,
                printed: Printed::of(pieces(text, before)),
                looks,
            };
            findings.expect(self.row, &plan, &wanted)?;
        }
        let plan = Plan {
            put: puts.saturating_add(1),
            ..*plan
        };
        let wanted = Wanted {
            status,
            printed: Printed::of(text),
            looks,
        };
        findings.expect(self.row, &plan, &wanted)
    }
}
