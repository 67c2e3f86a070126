//! Gatekeeping with two families of hypotheses.
ghost use Rattle.std.specs.Prelude.{◌≡◌, ◌≤◌, ◌+◌, ◌⊎◌, Some, None, IfOk, IfErr, Ok, Err};
ghost use Rattle.case_model.specs.CaseView.{content};
ghost use Rattle.catalogue.specs.Makings.{parallel_case, improved_case};
ghost use Rattle.catalogue.specs.Sizes.{sizes_fault};
ghost use Rattle.catalogue.specs.declared.fault.CatalogueFault.TheVariants.{NoMemory as OutOfMemory};

use crate::CatalogueFault;
use crate::draft::made;
use crate::graph::NamedGraph;
use crate::quotient::{constant, linear, minus_part, one, part, zero};
use crate::sizes::sizes_of;
use case_model::{Case, Entry};
use fraction::Fraction;
use std::alloc::Global;

/// Two families: the primary hypotheses, and then the secondary ones. There are at most 64, and some of each.
#[derive(Clone, Copy)]
struct Families {
    primary: usize,
    secondary: usize,
    ghost some_primary: { 1 ≤ primary },
    ghost some_secondary: { 1 ≤ secondary },
    ghost few: { primary + secondary ≤ 64 },
}

impl Families {
    ghost use Rattle.std.specs.Prelude.{◌≡◌, ◌+◌, ◌≤◌, Some, None, nat_lt, if◌then◌else◌};
    ghost use Rattle.case_model.specs.Sums.{zero_ratio};
    ghost use Rattle.catalogue.specs.NamedGraphs.{part, constant, back_edge};

    /// Returns how many hypotheses there are.
    fn size(&self) -> usize
        ensures { result ≡ self.now.primary + self.now.secondary }
    {
        self.primary + self.secondary
    }

    /// Returns the weight of the hypothesis at a position: the primary ones have equal weights.
    fn weight(&self, i: usize) -> Fraction
        ensures { result ≡ (if nat_lt i self.now.primary then part self.now.primary else zero_ratio) }
    {
        if i < self.primary {
            part(self.primary)
        } else {
            zero()
        }
    }

    /// Returns the edge from a primary hypothesis to the hypothesis at a position: equal parts go to the secondary ones.
    fn edge_on(&self, to: usize) -> Option<Entry>
        ensures { result ≡ (if nat_lt to self.now.primary then None else Some (constant (part self.now.secondary))) }
    {
        if to < self.primary {
            return None;
        }
        Some(constant(part(self.secondary)))
    }

    /// Returns the edge from a secondary hypothesis to a primary one: epsilon to one of them, by turns, and none to the others.
    fn edge_back(&self, from: usize, to: usize) -> Option<Entry>
        requires { self.now.primary ≤ from }
        ensures { result ≡ back_edge self.now.primary from to }
    {
        if to == (from - self.primary) % self.primary {
            Some(linear(zero(), one()))
        } else {
            None
        }
    }
}

/// The graph of parallel gatekeeping: secondary hypotheses pass their weight to each other.
#[derive(Clone, Copy)]
struct ParallelGates {
    families: Families,
}

#[tactic(auto, unfolding(crate::specs::NamedGraphs::parallel_graph))]
impl NamedGraph for ParallelGates {
    ghost use Rattle.catalogue.specs.NamedGraphs.{parallel_graph};

    ghost graph = { λ g. parallel_graph g.families.primary g.families.secondary };

    fn size(&self) -> usize {
        self.families.size()
    }

    fn weight(&self, i: usize) -> Fraction {
        self.families.weight(i)
    }

    fn edge(&self, from: usize, to: usize) -> Option<Entry> {
        let Families {
            primary,
            secondary,
            ..
        } = self.families;
        if from < primary {
            self.families.edge_on(to)
        } else if to < primary || from == to {
            None
        } else {
            Some(constant(part(secondary - 1)))
        }
    }
}

/// The graph of improved parallel gatekeeping: a secondary hypothesis passes 1 - epsilon to the other secondary ones, and epsilon
/// back to a primary one.
#[derive(Clone, Copy)]
struct ImprovedGates {
    families: Families,
}

#[tactic(auto, unfolding(crate::specs::NamedGraphs::improved_graph))]
impl NamedGraph for ImprovedGates {
    ghost use Rattle.catalogue.specs.NamedGraphs.{improved_graph};

    ghost graph = { λ g. improved_graph g.families.primary g.families.secondary };

    fn size(&self) -> usize {
        self.families.size()
    }

    fn weight(&self, i: usize) -> Fraction {
        self.families.weight(i)
    }

    fn edge(&self, from: usize, to: usize) -> Option<Entry> {
        let Families {
            primary,
            secondary,
            ..
        } = self.families;
        if from < primary {
            self.families.edge_on(to)
        } else if to < primary {
            self.families.edge_back(from, to)
        } else if from == to {
            None
        } else {
            Some(linear(part(secondary - 1), minus_part(secondary - 1)))
        }
    }
}

/// Returns two families of these sizes, or the fault of the sizes.
fn two_families(a: u64, b: u64) -> Result<Families, CatalogueFault>
    ensures families { IfOk result (λ families. (families.primary ≡ a) × (families.secondary ≡ b)) }
    ensures good { IfOk result (λ _. sizes_fault a b ≡ None) }
    ensures fault { IfErr result (λ fault. sizes_fault a b ≡ Some fault) }
{
    let (primary, secondary) = sizes_of(a, b)?;
    Ok(Families { primary, secondary })
}

/// Returns the case of parallel gatekeeping with `a` primary and `b` secondary hypotheses, at least 1 of each and at most 64
/// together. Each primary one has the weight 1/a and passes 1/b to each secondary one; each secondary one passes 1/(b - 1) to
/// each other secondary one. `p` has no p-value, or one for each hypothesis.
///
/// Unless out of memory, the call is refused with `Size` exactly if `a` or `b` is 0 or their sum is above 64. Else it is refused
/// with `Case` exactly if the draft has an error.
#[tactic(auto, unfolding(crate::specs::Makings::parallel_case))]
pub fn parallel(
    alloc: Global,
    a: u64,
    b: u64,
    alpha: Fraction,
    p: &[Fraction],
) -> Result<Case, CatalogueFault>
    ensures case { IfOk result (λ c. parallel_case a b alpha p.now ≡ Ok (content c)) }
    ensures fault { IfErr result (λ fault. (fault ≡ OutOfMemory) ⊎ (parallel_case a b alpha p.now ≡ Err fault)) }
{
    let families = two_families(a, b)?;
    made(alloc, &ParallelGates { families }, alpha, p)
}

/// Returns the case of improved parallel gatekeeping with `a` primary and `b` secondary hypotheses. Each secondary hypothesis
/// passes epsilon to one primary one, by turns, and (1 - epsilon)/(b - 1) to each other secondary one. All else, and the
/// refusals, are those of `parallel`.
#[tactic(auto, unfolding(crate::specs::Makings::improved_case))]
pub fn improved_parallel(
    alloc: Global,
    a: u64,
    b: u64,
    alpha: Fraction,
    p: &[Fraction],
) -> Result<Case, CatalogueFault>
    ensures case { IfOk result (λ c. improved_case a b alpha p.now ≡ Ok (content c)) }
    ensures fault { IfErr result (λ fault. (fault ≡ OutOfMemory) ⊎ (improved_case a b alpha p.now ≡ Err fault)) }
{
    let families = two_families(a, b)?;
    made(alloc, &ImprovedGates { families }, alpha, p)
}
