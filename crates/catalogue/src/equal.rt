//! Holm's graph.
ghost use Rattle.std.specs.Prelude.{◌≡◌, ◌≤◌, ◌⊎◌, true, IfOk, IfErr, Ok, Err};
ghost use Rattle.case_model.specs.CaseView.{content};
ghost use Rattle.case_model.specs.Content.{entangled, is_plain};
ghost use Rattle.case_model.specs.TextbookGraphs.{IsHolmGraph};
ghost use Rattle.catalogue.specs.Makings.{holm_case};
ghost use Rattle.catalogue.specs.TextbookCases.{DecidesAsHolm};
ghost use Rattle.catalogue.specs.declared.fault.CatalogueFault.TheVariants.{NoMemory as OutOfMemory};

use crate::CatalogueFault;
use crate::draft::made;
use crate::graph::NamedGraph;
use crate::quotient::{constant, part};
use crate::sizes::size_of;
use case_model::{Case, Entry};
use fraction::Fraction;
use std::alloc::Global;

/// Holm's graph: equal weights, and equal edges between different hypotheses.
#[derive(Clone, Copy)]
struct Equal {
    size: usize,
    ghost some: { 1 ≤ size },
}

#[tactic(auto, unfolding(crate::specs::NamedGraphs::holm_graph))]
impl NamedGraph for Equal {
    ghost use Rattle.catalogue.specs.NamedGraphs.{holm_graph};

    ghost graph = { λ g. holm_graph g.size };

    fn size(&self) -> usize {
        self.size
    }

    fn weight(&self, _: usize) -> Fraction {
        part(self.size)
    }

    fn edge(&self, from: usize, to: usize) -> Option<Entry> {
        if from == to {
            return None;
        }
        Some(constant(part(self.size - 1)))
    }
}

/// Returns the case of Holm's graph of `n` hypotheses, from 1 to 64. Each has the weight 1/n and passes 1/(n - 1) to each other
/// one. `p` has no p-value, or one for each hypothesis. The closed test on the case rejects exactly what Holm's rule rejects.
///
/// Unless out of memory, the call is refused with `Size` exactly if `n` isn't from 1 to 64, and else with `Case` exactly if the
/// draft has an error.
#[tactic(auto, unfolding(crate::specs::Makings::holm_case))]
pub fn holm(alloc: Global, n: u64, alpha: Fraction, p: &[Fraction]) -> Result<Case, CatalogueFault>
    ensures case { IfOk result (λ c. holm_case n alpha p.now ≡ Ok (content c)) }
    ensures fault { IfErr result (λ fault. (fault ≡ OutOfMemory) ⊎ (holm_case n alpha p.now ≡ Err fault)) }
    ensures graph { IfOk result (λ c. IsHolmGraph (entangled (content c))) }
    ensures plain { IfOk result (λ c. is_plain (content c) ≡ true) }
    ensures rule { IfOk result (λ c. DecidesAsHolm n alpha p.now (content c)) }
{
    let size = size_of(n)?;
    made(alloc, &Equal { size }, alpha, p)
}
