//! Many rows of p-values on the case of a text.
ghost use Rattle.std.specs.Prelude.{◌≡◌, ◌↔◌, IsTrue, IfOk, IfErr};
ghost use Rattle.case_model.specs.CaseTests.{IsUnstaged};
ghost use Rattle.case_model.specs.CaseView.{content};
ghost use Rattle.welungad_c.specs.RowCalls.{IsCaseOf, IsNoCase, TestsRows, fault_code};

use crate::reply::source;
use case_model::{Case, Inputs};
use command_words::CaseFormat;
use graph_cli::{InputKind, Needs, accepted_case};
use std::alloc::Global;
use trial_rows::{RowsFault, test_rows};

/// Whether a case has no p-values of stages.
fn is_unstaged(case: &Case) -> bool
    ensures { IsTrue result ↔ IsUnstaged (content case.now).inputs }
{
    match case.inputs() {
        Inputs::Bare | Inputs::Single(_) => true,
        Inputs::Staged(_) => false,
    }
}

/// Returns the case without stages that a text denotes, or the status with which it is refused.
fn case_of(alloc: Global, text: &[u8]) -> Result<Case, u8>
    ensures case { IfOk result (λ case. IsCaseOf text.now (content case)) }
    ensures none { IfErr result (IsNoCase text.now) }
{
    let mut source = match source(alloc, text) {
        Ok(source) => source,
        Err(_) => return Err(8),
    };
    let needs = Needs::new(InputKind::Any, 64);
    match accepted_case(alloc, &CaseFormat::Text, needs, &mut source) {
        Ok(case) => { if is_unstaged(&case) { Ok(case) } else { Err(3) } }
        Err(stop) => Err(stop.code()),
    }
}

/// Returns the status of a call that decides no row because of a fault.
fn status_of(fault: RowsFault) -> u8
    ensures { result ≡ fault_code fault }
{
    match fault {
        RowsFault::Lengths => 11,
        RowsFault::Wide(_) => 5,
        RowsFault::NoMemory => 8,
    }
}

/// Decides the case of a text with each of many rows of p-values, and returns the status of the call.
pub fn test_text(
    alloc: Global,
    text: &[u8],
    doubles: &[u64],
    rejected: &mut [u8],
    statuses: &mut [u8],
) -> u8
    ensures { TestsRows text.now doubles.now rejected.old rejected.new statuses.old statuses.new result }
{
    match case_of(alloc, text) {
        Ok(case) => match test_rows(alloc, &case, doubles, rejected, statuses) {
            Ok(()) => 0,
            Err(fault) => status_of(fault),
        },
        Err(status) => status,
    }
}
