//! The graph after removals, for the case of a text.
ghost use Rattle.std.specs.Prelude.{◌≡◌, IfOk};
ghost use Rattle.answers.specs.Codes.{cause_code};
ghost use Rattle.case_model.specs.CaseView.{content};
ghost use Rattle.welungad_c.specs.UpdateCalls.{IsCaseReply, IsUpdateReply};

use crate::reply::{Reply, source};
use answers::{Refusal, Stop};
use case_model::Case;
use command_words::CaseFormat;
use field_core::{List, NoMemory};
use graph_cli::{InputKind, Needs, accepted_case};
use graph_update::{UpdateFault, update};
use refusals::{When, wide_refusal};
use std::alloc::Global;

/// Returns a refusal as a reply.
fn refused(refusal: Refusal) -> Reply
    ensures text { result.text ≡ refusal.line }
    ensures status { result.status ≡ cause_code refusal.cause }
{
    let Refusal { cause, line } = refusal;
    Reply {
        status: cause.code(),
        text: line,
    }
}

/// Returns the reply for a case and the positions of hypotheses that are removed. `NoMemory`: out of memory.
fn case_reply(alloc: Global, case: &Case, removed: &[usize]) -> Result<Reply, NoMemory>
    ensures { IfOk result (λ reply. IsCaseReply (content case.now) removed.now reply.text reply.status) }
{
    match update(alloc, case, removed) {
        Ok(text) => Ok(Reply { status: 0, text }),
        Err(UpdateFault::Positions) => Ok(Reply {
            status: 11,
            text: List::new(alloc),
        }),
        Err(UpdateFault::Wide(n, wide)) => {
            let refusal = wide_refusal(alloc, case.names(), When::Step(n), &wide)?;
            Ok(refused(refusal))
        }
        Err(UpdateFault::NoMemory) => Err(NoMemory),
    }
}

/// Returns the reply for the case of a text and the positions of hypotheses that are removed. `NoMemory`: out of memory.
pub fn update_reply(alloc: Global, text: &[u8], removed: &[usize]) -> Result<Reply, NoMemory>
    ensures { IfOk result (λ reply. IsUpdateReply text.now removed.now reply.text reply.status) }
{
    let mut source = source(alloc, text)?;
    let needs = Needs::new(InputKind::Any, 64);
    match accepted_case(alloc, &CaseFormat::Text, needs, &mut source) {
        Ok(case) => case_reply(alloc, &case, removed),
        Err(Stop::Refused(refusal)) => Ok(refused(refusal)),
        Err(_) => Err(NoMemory),
    }
}
