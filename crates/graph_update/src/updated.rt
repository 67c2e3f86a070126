//! The graph of a case after removals.
ghost use Rattle.std.specs.Prelude.{◌≡◌, IfOk, IfErr};
ghost use Rattle.case_model.specs.CaseView.{content};
ghost use Rattle.graph_update.specs.Updates.{IsUpdate, IsUpdateFault};

use crate::UpdateFault;
use crate::nets::nets_after;
use crate::positions::are_positions;
use crate::text::text_of;
use case_model::Case;
use field_core::List;
use std::alloc::Global;

/// Returns the text of the graph of a case after the removals of hypotheses, one after another. The p-values of the case, if it has
/// some, are not used.
///
/// `removed` has the positions of the hypotheses from 0 on, in the order of their removal, each once. The lines are:
/// - for each component `component K`, with K from 1 on. For each hypothesis that remains, by ascending position, there follow
///   `weight NAME N` and `edge FROM TO N` for each of its edges that is not 0, by ascending position;
/// - `level NAME FRACTION` for each hypothesis that remains: its weight over all components, as a fraction of alpha;
/// - `end`.
///
/// N is a fraction if the case is plain, and else a quotient in epsilon, as evidence prints it.
///
/// Errors:
/// - `Positions`: exactly if a position is not that of a hypothesis, or is there twice.
/// - `Wide`: else, exactly if the opening or a removal is undefined.
/// - `NoMemory`: else, at any time.
pub fn update(alloc: Global, case: &Case, removed: &[usize]) -> Result<List<u8>, UpdateFault>
    ensures text { IfOk result (IsUpdate (content case.now) removed.now) }
    ensures fault { IfErr result (IsUpdateFault (content case.now) removed.now) }
{
    if !are_positions(removed, case.size()) {
        return Err(UpdateFault::Positions);
    }
    let nets = nets_after(alloc, case, removed)?;
    Ok(text_of(alloc, case, &nets)?)
}
