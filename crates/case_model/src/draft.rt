//! Drafts, and the cases that they make.
ghost use Rattle.std.specs.Prelude.{◌≡◌, ◌≤◌, ◌⊎◌, true, None, Some, IfOk, OnOk, IfErr, map, Option};
ghost use Rattle.std.specs.List.{list_all};
ghost use Rattle.std.specs.Option.{option_and_then};
ghost use Rattle.case_model.specs.Draft.{goes_between, have_known_ends, have_known_arrivals};
ghost use Rattle.case_model.specs.Content.{content_of, tabled, inputs_of, has_coefficients};
ghost use Rattle.case_model.specs.CaseFaults.{
  mixed,
  long_stage_part,
  stages_fault,
  part_too_long,
  alpha_range,
  fault_before_edges,
  early_fault,
  late_fault,
  case_fault,
};
ghost use Rattle.case_model.specs.CaseView.{content};
ghost use Rattle.case_model.specs.Tables.{are_tables};
ghost use Rattle.case_model.specs.declared.fault.CaseFault.TheVariants.{NoMemory as OutOfMemory};

use crate::component::tabled;
use crate::components::{components_fault, edges_fault, long_part, shares_fault, weights_fault};
use crate::fraction_tests::{is_level_range, is_short_level};
use crate::names::names_fault;
use crate::p_values::{long_p_value, p_values_fault};
use crate::row_sums::rows_fault;
use crate::{Case, CaseFault, Component, DraftComponent, DraftStages, Inputs, PartPlace, Refused};
use field_core::{List, Text};
use fraction::Fraction;
use std::alloc::Global;

/// A case as it was read, which may have faults. `p` has no place, or one for each hypothesis; an empty place is a p-value that
/// is missing, and if all are empty the case has no p-values.
#[derive(Drop)]
pub struct Draft {
    pub names: List<Text>,
    pub alpha: Fraction,
    pub p: List<Option<Fraction>>,
    pub components: List<DraftComponent>,
    pub stages: Option<DraftStages>,
}

impl Draft {
    /// Whether each edge goes from a hypothesis to a hypothesis.
    #[tactic(auto, unfolding(crate::specs::Draft::have_known_ends))]
    pub fn has_known_ends(&self) -> bool
        ensures { result ≡ have_known_ends self.now }
    {
        let count = self.names.len();
        self.components
            .iter()
            .all(|component| component.has_known_ends(count))
    }

    /// Whether each p-value that arrived is of a hypothesis.
    #[tactic(auto, unfolding(crate::specs::Draft::have_known_arrivals))]
    pub fn has_known_arrivals(&self) -> bool
        ensures { result ≡ have_known_arrivals self.now }
    {
        match &self.stages {
            Some(stages) => stages.has_known_arrivals(self.names.len()),
            None => true,
        }
    }

    /// Returns the case that the draft denotes, or the first fault that a row of `CaseFault` finds in it, or `NoMemory`. A
    /// refusal gives the draft's names back; the rest is dropped. The ends of each edge, and the place of each p-value that arrived,
    /// have to be those of hypotheses.
    pub fn finish(self, alloc: Global) -> Result<Case, Refused>
        requires ends { have_known_ends self ≡ true }
        requires arrivals { have_known_arrivals self ≡ true }
        ensures case { IfOk result (λ c. content c ≡ content_of self) }
        ensures faultless { OnOk result (case_fault self ≡ None) }
        ensures fault { IfErr result (λ r. (r.fault ≡ OutOfMemory) ⊎ (case_fault self ≡ Some r.fault)) }
        ensures names { IfErr result (λ r. r.names ≡ self.names) }
    {
        let early = self.early_fault();
        let Draft {
            names,
            alpha,
            p,
            components,
            stages,
        } = self;
        if let Some(fault) = early {
            return Err(Refused { names, fault });
        }
        match Parts::made(alloc, names.len(), &alpha, stages, p.as_slice(), components) {
            Ok(parts) => Ok(Case::of(names, alpha, parts.components, parts.inputs)),
            Err(fault) => Err(Refused { names, fault }),
        }
    }

    /// Returns the first fault of the tests before those of the edges.
    fn fault_before_edges(&self) -> Option<CaseFault>
        ensures { result ≡ fault_before_edges self.now }
    {
        let count = self.names.len();
        let components = self.components.as_slice();
        names_fault(self.names.as_slice())
            .or_else(|| components_fault(components))
            .or_else(|| self.part_too_long())
            .or_else(|| self.alpha_range())
            .or_else(|| shares_fault(components))
            .or_else(|| weights_fault(count, components))
    }

    /// Returns the first fault of the tests before those of the rows of edges.
    #[tactic(auto, unfolding(crate::specs::CaseFaults::early_fault))]
    fn early_fault(&self) -> Option<CaseFault>
        requires { have_known_ends self.now ≡ true }
        ensures { result ≡ early_fault self.now }
    {
        if let Some(fault) = self.fault_before_edges() {
            return Some(fault);
        }
        edges_fault(self.names.len(), self.components.as_slice())
    }

    /// Returns the fault of the first number with a part above its limit.
    #[tactic(auto, unfolding(crate::specs::CaseFaults::part_too_long, crate::specs::CaseFaults::long_alpha))]
    fn part_too_long(&self) -> Option<CaseFault>
        ensures { result ≡ part_too_long self.now }
    {
        if !is_short_level(&self.alpha) {
            return Some(CaseFault::PartTooLong(PartPlace::Alpha));
        }
        long_part(self.components.as_slice())
            .or_else(|| long_p_value(self.p.as_slice()))
            .or_else(|| long_stage_part(&self.stages))
    }

    /// Returns the fault if the level isn't above 0 and at most 1.
    #[tactic(auto, unfolding(crate::specs::CaseFaults::alpha_range))]
    fn alpha_range(&self) -> Option<CaseFault>
        ensures { result ≡ alpha_range self.now.alpha }
    {
        (!is_level_range(&self.alpha)).then_some(CaseFault::AlphaRange)
    }
}

/// What a draft gives to its case, apart from the names and the level.
#[derive(Drop)]
struct Parts {
    components: List<Component>,
    inputs: Inputs,
}

impl Parts {
    /// Returns the components with their edges in tables, and the p-values, or the first fault of the later tests.
    fn made(
        alloc: Global,
        count: usize,
        alpha: &Fraction,
        stages: Option<DraftStages>,
        p: &[Option<Fraction>],
        components: List<DraftComponent>,
    ) -> Result<Parts, CaseFault>
        requires few { count ≤ 64 }
        requires ends { list_all (λ k. list_all (goes_between count) k.edges) components ≡ true }
        ensures components { IfOk result (λ parts. parts.components ≡ map (tabled count) components) }
        ensures coefficients { IfOk result (λ parts. has_coefficients parts.components ≡ true) }
        ensures inputs { IfOk result (λ parts. parts.inputs ≡ inputs_of stages p.now) }
        ensures faultless { OnOk result (late_fault count alpha.now stages p.now (map (tabled count) components) ≡ None) }
        ensures fault { IfErr result (λ fault. (fault ≡ OutOfMemory)
            ⊎ (late_fault count alpha.now stages p.now (map (tabled count) components) ≡ Some fault)) }
    {
        let components = tabled(alloc, count, components)?;
        if let Some(fault) = late_fault(count, alpha, &stages, p, components.as_slice()) {
            return Err(fault);
        }
        let inputs = Inputs::of(alloc, stages, p)?;
        Ok(Parts { components, inputs })
    }
}

/// Returns the fault of the first number of stages with a part above its limit.
fn long_stage_part(stages: &Option<DraftStages>) -> Option<CaseFault>
    ensures { result ≡ option_and_then long_stage_part stages.now }
{
    match stages {
        Some(stages) => stages.long_part(),
        None => None,
    }
}

/// Returns the first fault of the stages of a number of hypotheses, if there are some.
fn stages_fault(size: usize, alpha: &Fraction, stages: &Option<DraftStages>) -> Option<CaseFault>
    ensures { result ≡ option_and_then (stages_fault size alpha.now) stages.now }
{
    match stages {
        Some(stages) => stages.fault(size, alpha),
        None => None,
    }
}

/// Returns the error that there are stages and single p-values, if so.
#[tactic(auto, unfolding(crate::specs::CaseFaults::mixed))]
fn mixed(stages: &Option<DraftStages>, p: &[Option<Fraction>]) -> Option<CaseFault>
    ensures { result ≡ mixed stages.now p.now }
{
    (stages.is_some() && !p.is_empty()).then_some(CaseFault::Mixed)
}

/// Returns the first fault of the rows of edges, of the p-values and of the stages.
#[tactic(auto, unfolding(crate::specs::CaseFaults::late_fault))]
fn late_fault(
    count: usize,
    alpha: &Fraction,
    stages: &Option<DraftStages>,
    p: &[Option<Fraction>],
    components: &[Component],
) -> Option<CaseFault>
    requires few { count ≤ 64 }
    requires tables { are_tables count components.now ≡ true }
    ensures { result ≡ late_fault count alpha.now stages.now p.now components.now }
{
    rows_fault(count, components)
        .or_else(|| mixed(stages, p))
        .or_else(|| p_values_fault(count, p))
        .or_else(|| stages_fault(count, alpha, stages))
}
