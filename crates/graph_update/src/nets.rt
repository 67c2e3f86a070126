//! The nets of a case after removals.
ghost use Rattle.std.specs.Prelude.{◌≡◌, length, IfOk, IfErr, Ok};
ghost use Rattle.field_core.specs.Sets.{whole};
ghost use Rattle.field_core.specs.Runs.{IsOrder};
ghost use Rattle.case_model.specs.CaseView.{content};
ghost use Rattle.entangled.specs.CaseAfter.{case_after};
ghost use Rattle.entangled.specs.CaseNetView.{case_state};
ghost use Rattle.graph_update.specs.Updates.{IsRunFault};

use crate::UpdateFault;
use case_model::Case;
use entangled::CaseNet;
use std::alloc::Global;

/// Returns the nets of a case after the removals of hypotheses, one after another.
pub fn nets_after(alloc: Global, case: &Case, removed: &[usize]) -> Result<CaseNet, UpdateFault>
    requires { IsOrder (length (content case.now).names) whole removed.now }
    ensures nets { IfOk result (λ nets. case_after (content case.now) removed.now ≡ Ok (case_state nets)) }
    ensures fault { IfErr result (IsRunFault (content case.now) removed.now) }
{
    let mut nets = CaseNet::load(alloc, case)?;
    for i in 0..removed.len() {
        if let Err(wide) = nets.remove(removed[i]) {
            return Err(UpdateFault::Wide(i + 1, wide));
        }
    }
    Ok(nets)
}
