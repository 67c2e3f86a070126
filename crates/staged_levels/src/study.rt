//! Studies: p-values that arrive at stages, and the rejections that they allow.
ghost use Rattle.std.specs.Prelude.{◌≡◌, ◌≤◌, ◌*◌, ◌↔◌, length, vec_capacity, IfOk, IsTrue};
ghost use Rattle.case_model.specs.CaseView.{content};
ghost use Rattle.case_model.specs.declared.inputs.Inputs.TheVariants.{Staged};
ghost use Rattle.entangled.specs.CaseNetView.{case_state};
ghost use Rattle.staged_levels.specs.StudyAnswers.{IsStaged};
ghost use Rattle.staged_levels.specs.StudyContents.{IsSomeStudy};

use crate::{Event, SettleFault, Settled, StepFault};
use case_model::{Arrival, Case, Inputs, Spend, Stages, is_p_value};
use entangled::{CaseNet, OpenFault};
use field_core::{List, NoMemory, WideAt};
use fraction::Fraction;
use std::alloc::Global;

/// A case whose p-values arrive at stages, and its rejections so far.
///
/// There is room for all arrivals and all rejections from the start, so no call after the opening takes memory.
#[derive(Drop)]
pub struct Study {
    net: CaseNet,
    spends: List<Spend>,
    count: usize,
    alpha: Fraction,
    values: Vec<Arrival>,
    settled: Vec<Settled>,
    ghost whole: { IsSomeStudy (record {
      spends = spends;
      count = count;
      alpha = alpha;
      state = case_state net;
      looks = record { values = values.items; rejected = settled.items };
    }) },
    ghost value_room: { count * length spends ≤ vec_capacity values },
    ghost room: { length spends ≤ vec_capacity settled },
}

/// Whether the p-values of a case are those of stages, as studies require.
pub fn is_staged(case: &Case) -> bool
    ensures { IsTrue result ↔ IsStaged (content case.now).inputs }
{
    matches!(case.inputs(), Inputs::Staged(_))
}

/// Returns the stages of a case.
fn stages_of(case: &Case) -> &Stages
    requires { IsStaged (content case.now).inputs }
    ensures inputs { (content case.now).inputs ≡ Staged result.now }
    ensures few { result.now.count ≤ 12 }
    ensures spends { length result.now.spend ≡ length (content case.now).names }
{
    match case.inputs() {
        Inputs::Staged(stages) => stages,
        _ => unreachable!(),
    }
}

/// Returns copies of what the `size` hypotheses spend at stages, or `NoMemory`.
fn copied(alloc: Global, stages: &Stages, size: usize) -> Result<List<Spend>, NoMemory>
    requires { length stages.now.spend ≡ size }
    ensures { IfOk result (λ spends. spends ≡ stages.now.spend) }
{
    let mut spends = List::new(alloc);
    for k in 0..size {
        spends.push(stages.spend(k).copy(alloc)?)?;
    }
    Ok(spends)
}

// Opening and reading.
#[tactic(auto, unfolding(crate::specs::StudyView::study))]
impl Study {
    ghost use Rattle.std.specs.Prelude.{◌≡◌, ◌<◌, ◌↔◌, ℕ, IsTrue, IfOk, IfErr, true};
    ghost use Rattle.field_core.specs.View.{terms};
    ghost use Rattle.fraction.specs.View.{number_of};
    ghost use Rattle.case_model.specs.Content.{Content, entangled};
    ghost use Rattle.case_model.specs.CaseView.{content};
    ghost use Rattle.case_model.specs.IntersectionWeight.{IsIntersectionWeight};
    ghost use Rattle.case_model.specs.LegalOrder.{IsListed};
    ghost use Rattle.case_model.specs.StagedCase.{IsStagedRejectedIn};
    ghost use Rattle.entangled.specs.CaseRun.{is_live_in_case, case_level};
    ghost use Rattle.staged_levels.specs.Studies.{start, positions_of, remaining, IsSettled};
    ghost use Rattle.staged_levels.specs.StudyAnswers.{IsStaged};
    ghost use Rattle.entangled.specs.OpenFaults.{IsOpenFaultOf};
    ghost use Rattle.staged_levels.specs.StudyContents.{IsStudy, size_of};
    ghost use Rattle.staged_levels.specs.StudyView.{study};

    /// Opens a case whose p-values are those of stages. Nothing has arrived yet, not even the arrivals of the case, and nothing is
    /// rejected.
    ///
    /// Unless out of memory, the call is refused with `OpenFault::Wide` exactly if the written opening is undefined. All memory that
    /// a study needs is taken here.
    pub fn open(alloc: Global, case: &Case) -> Result<Study, OpenFault>
        requires { IsStaged (content case.now).inputs }
        ensures study { IfOk result (λ s. IsStudy (content case.now) (study s)) }
        ensures start { IfOk result (λ s. (study s).looks ≡ start) }
        ensures fault { IfErr result (IsOpenFaultOf (content case.now)) }
    {
        let stages = stages_of(case);
        let size = case.size();
        let spends = copied(alloc, stages, size)?;
        let values = Vec::with_capacity(alloc, stages.count() * size)?;
        let settled = Vec::with_capacity(alloc, size)?;
        let net = CaseNet::load(alloc, case)?;
        Ok(Study {
            net,
            spends,
            count: stages.count(),
            alpha: case.alpha(),
            values,
            settled,
        })
    }

    /// Returns the number of hypotheses, those that are rejected among them.
    pub fn size(&self) -> usize
        ensures { result ≡ size_of (study self.now) }
    {
        self.spends.len()
    }

    /// Returns the rejections in their order, each with its weight at its moment, and the least arrived stage that met the test
    /// then.
    ///
    /// The staged closed test on the values that have arrived rejects each of them, and no other once none is legal.
    pub fn settled(&self) -> &[Settled]
        ensures value { result.now ≡ (study self.now).looks.rejected }
        ensures sound { (c : Content) (j : ℕ) → IsStudy c (study self.now) → IsListed (positions_of result.now) j
            → IsStagedRejectedIn c (study self.now).looks.values j }
        ensures complete { (c : Content) (j : ℕ) → IsStudy c (study self.now) → IsSettled c (study self.now).looks
            → IsStagedRejectedIn c (study self.now).looks.values j → IsListed (positions_of result.now) j }
    {
        self.settled.as_slice()
    }

    /// Returns the p-values that have arrived, in their order.
    pub fn values(&self) -> &[Arrival]
        ensures { result.now ≡ (study self.now).looks.values }
    {
        self.values.as_slice()
    }

    /// Whether `k` remains.
    fn is_in(&self, k: usize) -> bool
        requires { k < size_of (study self.now) }
        ensures { result ≡ is_live_in_case (study self.now).state k }
    {
        self.net.is_live(k)
    }

    /// Returns the present weight of `k`.
    fn present_weight(&self, k: usize) -> Fraction
        requires { is_live_in_case (study self.now).state k ≡ true }
        ensures { terms result ≡ case_level (study self.now).state k }
    {
        self.net.weight_limit(k)
    }

    /// Returns the weight of `k` among the hypotheses that aren't rejected, as a fraction of the level. `k` is below
    /// the size and isn't rejected.
    pub fn weight_limit(&self, k: usize) -> Fraction
        requires size { k < size_of (study self.now) }
        requires remains { ¬ IsListed (positions_of (study self.now).looks.rejected) k }
        ensures { (c : Content) → IsStudy c (study self.now)
            → IsIntersectionWeight (entangled c) (remaining (study self.now).looks) k (number_of result) }
    {
        self.present_weight(k)
    }
}

// What is legal.
#[tactic(auto, unfolding(crate::specs::StudyView::study))]
impl Study {
    ghost use Rattle.std.specs.Prelude.{◌≡◌, ◌<◌, ◌≤◌, ◌↔◌, ℕ, IsTrue, IfSome, None, true};
    ghost use Rattle.fraction.specs.View.{number_of};
    ghost use Rattle.case_model.specs.Content.{Content};
    ghost use Rattle.entangled.specs.CaseRun.{is_live_in_case};
    ghost use Rattle.staged_levels.specs.Studies.{IsLegalNow, IsSettled};
    ghost use Rattle.staged_levels.specs.StudyContents.{IsStudy, size_of, value_at, MeetsAtStage, MayRejectAt};
    ghost use Rattle.staged_levels.specs.StudyView.{study};

    /// Returns the p-value of `k` that arrived at stage `t`, if one has.
    fn value_at(&self, k: usize, t: usize) -> Option<Fraction>
        ensures { result ≡ value_at (study self.now).looks.values k t }
    {
        self.values
            .iter()
            .find(|arrival| arrival.hypothesis == k && arrival.stage == t)
            .map(|arrival| arrival.p)
    }

    /// Whether a p-value of `k` has arrived at stage `t` and meets its level there, at a weight.
    fn meets_at(&self, k: usize, t: usize, weight: &Fraction) -> bool
        requires below { k < size_of (study self.now) }
        requires first { 1 ≤ t }
        ensures { IsTrue result ↔ MeetsAtStage (study self.now) k t (number_of weight.now) }
    {
        match self.value_at(k, t) {
            Some(p) => self.spends.as_slice()[k].meets(&self.alpha, t, weight, &p),
            None => false,
        }
    }

    /// Returns the least stage at which `k`, which remains, may be rejected now, if there is one.
    fn first_stage(&self, k: usize) -> Option<usize>
        requires below { k < size_of (study self.now) }
        requires live { is_live_in_case (study self.now).state k ≡ true }
        ensures some { IfSome result (MayRejectAt (study self.now) k) }
        ensures none { result ≡ None → (c : Content) → IsStudy c (study self.now) → ¬ IsLegalNow c (study self.now).looks k }
    {
        let weight = self.present_weight(k);
        for t in 0..self.count {
            if self.meets_at(k, t + 1, &weight) {
                return Some(t + 1);
            }
        }
        None
    }

    /// Returns the least stage at which `k` may be rejected now, if it remains and there is one.
    fn legal_stage(&self, k: usize) -> Option<usize>
        requires { k < size_of (study self.now) }
        ensures some { IfSome result (MayRejectAt (study self.now) k) }
        ensures none { result ≡ None → (c : Content) → IsStudy c (study self.now) → ¬ IsLegalNow c (study self.now).looks k }
    {
        if self.is_in(k) {
            self.first_stage(k)
        } else {
            None
        }
    }

    /// Returns the first hypothesis that is legal now, and the least stage that makes it so.
    fn next(&self) -> Option<(usize, usize)>
        ensures some { IfSome result (λ n. MayRejectAt (study self.now) n.0 n.1) }
        ensures first { IfSome result (λ n. (c : Content) → IsStudy c (study self.now) → (k : ℕ) → k < n.0
            → ¬ IsLegalNow c (study self.now).looks k) }
        ensures none { result ≡ None → (c : Content) → IsStudy c (study self.now) → IsSettled c (study self.now).looks }
    {
        for k in 0..self.size() {
            if let Some(stage) = self.legal_stage(k) {
                return Some((k, stage));
            }
        }
        None
    }
}

// Events.
#[tactic(auto, unfolding(crate::specs::StudyView::study))]
impl Study {
    ghost use Rattle.std.specs.Prelude.{◌≡◌, ◌<◌, is_ok, OnOk, OnErr, IfErr, Err};
    ghost use Rattle.case_model.specs.Content.{Content};
    ghost use Rattle.entangled.specs.CaseRun.{case_removal};
    ghost use Rattle.staged_levels.specs.StudyCalls.{arrive, reject, settle, IsCall};
    ghost use Rattle.staged_levels.specs.StudyAnswers.{call_of, hypothesis_of, IsArriveFault, IsRejectFault, IsStepFault, IsSettleFault};
    ghost use Rattle.staged_levels.specs.StudyContents.{IsStudy, size_of, MayRejectAt, IsNextStudy};
    ghost use Rattle.staged_levels.specs.StudyView.{study};

    /// Appends the p-value of an arrival to those that have arrived, unless it is refused.
    fn arrive(&mut self, arrival: Arrival) -> Result<(), StepFault>
        requires { arrival.hypothesis < size_of (study self.old) }
        ensures study { (c : Content) → IsStudy c (study self.old) → IsStudy c (study self.new) }
        ensures call { (c : Content) → IsStudy c (study self.old)
            → IsCall c (study self.old).looks (arrive arrival) (is_ok result) (study self.new).looks }
        ensures fault { (c : Content) → IsStudy c (study self.old) → IfErr result (IsArriveFault c (study self.old).looks arrival) }
        ensures refused { OnErr result (study self.new ≡ study self.old) }
        ensures size { size_of (study self.new) ≡ size_of (study self.old) }
    {
        if arrival.stage == 0 || arrival.stage > self.count {
            return Err(StepFault::StageRange(arrival.stage));
        }
        if self.value_at(arrival.hypothesis, arrival.stage).is_some() {
            return Err(StepFault::Known(arrival.hypothesis, arrival.stage));
        }
        if !is_p_value(&arrival.p) {
            return Err(StepFault::PRange);
        }
        self.values.push_reserved(arrival);
        Ok(())
    }

    /// Removes `k`, which may be rejected at this stage. It is refused with `WideAt` exactly if the written removal is undefined;
    /// nothing is changed then.
    fn remove(&mut self, k: usize, stage: usize) -> Result<(), WideAt>
        requires { MayRejectAt (study self.old) k stage }
        ensures next { OnOk result (IsNextStudy (study self.old) k stage (study self.new)) }
        ensures wide { IfErr result (λ w. case_removal (study self.old).state k ≡ Err w) }
        ensures refused { OnErr result (study self.new ≡ study self.old) }
    {
        let weight = self.present_weight(k);
        self.net.remove(k)?;
        let hypothesis = k;
        self.settled.push_reserved(Settled {
            hypothesis,
            stage,
            weight,
        });
        Ok(())
    }

    /// Rejects `k` if it is legal.
    fn reject(&mut self, k: usize) -> Result<(), StepFault>
        requires { k < size_of (study self.old) }
        ensures study { (c : Content) → IsStudy c (study self.old) → IsStudy c (study self.new) }
        ensures call { (c : Content) → IsStudy c (study self.old)
            → IsCall c (study self.old).looks (reject k) (is_ok result) (study self.new).looks }
        ensures fault { (c : Content) → IsStudy c (study self.old) → IfErr result (IsRejectFault c (study self.old).looks k) }
        ensures refused { OnErr result (study self.new ≡ study self.old) }
        ensures size { size_of (study self.new) ≡ size_of (study self.old) }
    {
        if !self.is_in(k) {
            return Err(StepFault::Rejected(k));
        }
        match self.first_stage(k) {
            None => Err(StepFault::NotLegal(k)),
            Some(stage) => match self.remove(k, stage) {
                Ok(()) => Ok(()),
                Err(wide) => Err(StepFault::Wide(wide)),
            },
        }
    }

    /// Lets a p-value arrive, or rejects a hypothesis, whose position is below the size. A refusal changes nothing.
    ///
    /// An arrival is refused for the first of these causes; one of a rejected hypothesis is not refused for that:
    /// - `StageRange`: its stage isn't one of the case.
    /// - `Known`: a p-value of the hypothesis has arrived at the stage.
    /// - `PRange`: the p-value isn't from 0 to 1 with a denominator of at most 10^30.
    ///
    /// A rejection is refused for the first of these causes:
    /// - `Rejected`: the hypothesis was rejected before.
    /// - `NotLegal`: it isn't legal.
    /// - `Wide`: its removal is undefined.
    pub fn step(&mut self, event: Event) -> Result<(), StepFault>
        requires { hypothesis_of event < size_of (study self.old) }
        ensures study { (c : Content) → IsStudy c (study self.old) → IsStudy c (study self.new) }
        ensures call { (c : Content) → IsStudy c (study self.old)
            → IsCall c (study self.old).looks (call_of event) (is_ok result) (study self.new).looks }
        ensures fault { (c : Content) → IsStudy c (study self.old) → IfErr result (IsStepFault c (study self.old).looks event) }
        ensures refused { OnErr result (study self.new ≡ study self.old) }
        ensures size { size_of (study self.new) ≡ size_of (study self.old) }
    {
        match event {
            Event::Arrive(hypothesis, stage, p) => self.arrive(Arrival {
                hypothesis,
                stage,
                p,
            }),
            Event::Reject(hypothesis) => self.reject(hypothesis),
        }
    }

    /// Rejects the first hypothesis that is legal, until none is. The values that have arrived stay.
    ///
    /// If the removal of the next hypothesis is undefined, the settling stops part way with its first undefined operation
    /// (`SettleFault::Wide`), and the rejections before stay.
    pub fn settle(&mut self) -> Result<(), SettleFault>
        ensures study { (c : Content) → IsStudy c (study self.old) → IsStudy c (study self.new) }
        ensures call { (c : Content) → IsStudy c (study self.old)
            → IsCall c (study self.old).looks settle (is_ok result) (study self.new).looks }
        ensures fault { (c : Content) → IsStudy c (study self.old) → IfErr result (IsSettleFault c (study self.new).looks) }
        ensures size { size_of (study self.new) ≡ size_of (study self.old) }
    {
        while let Some((k, stage)) = self.next() {
            match self.remove(k, stage) {
                Ok(()) => (),
                Err(wide) => return Err(SettleFault::Wide(wide)),
            }
        }
        Ok(())
    }
}
