//! Registers of looks.
ghost use Rattle.std.specs.Prelude.{◌≡◌, ◌≢◌, ◌<◌, ◌≤◌, ◌+◌, Err, OnOk, OnErr, IfOk, IfErr, false, length};
ghost use Rattle.graph_io.specs.Causes.{Rose};
ghost use Rattle.graph_io.specs.Keeping.{with_look};
ghost use Rattle.case_model.specs.Content.{Content};
ghost use Rattle.case_model.specs.CaseView.{content};
ghost use Rattle.staged_levels.specs.StudyAnswers.{IsStaged};
ghost use Rattle.staged_levels.specs.StudyContents.{IsStudy, size_of};
ghost use Rattle.study_register.specs.Looking.{Takes, AreTaken};
ghost use Rattle.study_register.specs.RegisterFaults.{OnLooks, IsRegisterFault, IsAddFault, Leaves, spent_after, turns_of};

use crate::taking::{TakeFault, follow, take};
use crate::{AddFault, RegisterFault};
use case_model::Case;
use field_core::List;
use graph_io::{Keeper, Look};
use staged_levels::{Settled, Study};
use std::alloc::Global;

/// A study that is settled after each of its looks, all of which a keeper keeps.
#[derive(Drop)]
pub struct Register {
    study: Study,
    spent: bool,
}

impl Register {
    ghost use Rattle.std.specs.Prelude.{ℕ, ◌↔◌, List as Seq};
    ghost use Rattle.field_core.specs.declared.place.WideAt.{WideAt};
    ghost use Rattle.graph_io.specs.declared.keeper.Look.{Look as Kept};
    ghost use Rattle.case_model.specs.LegalOrder.{IsListed};
    ghost use Rattle.case_model.specs.StagedCase.{IsStagedRejectedIn};
    ghost use Rattle.case_model.specs.Validity.{IsValidContent};
    ghost use Rattle.staged_levels.specs.Studies.{positions_of};
    ghost use Rattle.staged_levels.specs.declared.event.StepFault.{StepFault};
    ghost use Rattle.study_register.specs.Looking.{arrivals_of};
    ghost use Rattle.study_register.specs.RegisterView.{study_in, looks_in, is_spent};

    /// Opens a case whose p-values are those of stages, and takes all looks of a keeper in their order: each arrives, and then the
    /// study is settled. The arrivals of the case itself don't count. The looks of the keeper stay.
    ///
    /// Faults, unless out of memory or the keeper fails; places count from 1:
    /// - `RegisterFault::Wide` at 0 exactly if the written opening is undefined. Else the first look that can't be taken is named.
    /// - `RegisterFault::BadLook` exactly if that look names no hypothesis of the case, or its arrival is refused.
    /// - `RegisterFault::Wide` at its place exactly if its settling stops part way.
    ///
    /// It is `RegisterFault::Fault` only if the case was opened and the keeper's count of faults rose in this call; with each other
    /// answer that count stays. The keeper is called once at most; and once if the register is opened, a look can't be taken because
    /// of its arrival, or the keeper fails.
    pub fn open<K: Keeper>(
        alloc: Global,
        case: &Case,
        keeper: &mut K,
    ) -> Result<Register, RegisterFault>
        requires { IsStaged (content case.now).inputs }
        ensures study { IfOk result (λ r. IsStudy (content case.now) (study_in r)) }
        ensures taken { IfOk result (λ r. OnLooks (K.looks keeper.old) (λ looks. AreTaken (content case.now) looks (looks_in r))) }
        ensures fresh { IfOk result (λ r. is_spent r ≡ false) }
        ensures fault { IfErr result (IsRegisterFault (content case.now) (K.looks keeper.old) (Rose
            (K.faults keeper.old) (K.faults keeper.new))) }
        ensures kept { K.looks keeper.new ≡ K.looks keeper.old }
        ensures later { K.faults keeper.old ≤ K.faults keeper.new }
        ensures steady { result ≢ Err RegisterFault.Fault → K.faults keeper.new ≡ K.faults keeper.old }
        ensures turns { K.calls keeper.new ≤ K.calls keeper.old + 1 }
        ensures loaded { OnOk result (K.calls keeper.new ≡ K.calls keeper.old + 1) }
        ensures asked { (n : ℕ) (l : Kept) → result ≡ Err (RegisterFault.BadLook n l)
            → K.calls keeper.new ≡ K.calls keeper.old + 1 }
        ensures fault_asked { result ≡ Err RegisterFault.Fault → K.calls keeper.new ≡ K.calls keeper.old + 1 }
    {
        let mut study = Study::open(alloc, case)?;
        let mut looks = List::new(alloc);
        keeper.load(alloc, &mut looks)?;
        follow(&mut study, looks.as_slice())?;
        Ok(Register {
            study,
            spent: false,
        })
    }

    /// Returns the number of hypotheses, as looks name them.
    pub fn size(&self) -> usize
        ensures { result ≡ size_of (study_in self.now) }
    {
        self.study.size()
    }

    /// Whether an addition stopped part way, so that nothing more can be added: the keeper may not hold what the study
    /// has taken.
    pub fn is_spent(&self) -> bool
        ensures { result ≡ is_spent self.now }
    {
        self.spent
    }

    /// Returns the number of looks that have arrived.
    pub fn count(&self) -> usize
        ensures { result ≡ length (looks_in self.now).values }
    {
        self.study.values().len()
    }

    /// Returns the place, counted from 1, of the look that would arrive next.
    pub fn next_place(&self) -> usize
        ensures { result ≡ length (looks_in self.now).values + 1 }
    {
        self.study.values().len() + 1
    }

    /// Returns the rejections in their order, each with its stage and its weight at its moment. If these looks were taken,
    /// whatever their order, they are exactly those of the staged closed test on them.
    pub fn settled(&self) -> &[Settled]
        ensures value { result.now ≡ (looks_in self.now).rejected }
        ensures decides { (c : Content) (looks : Seq Kept) (j : ℕ) → IsValidContent c
            → AreTaken c looks (looks_in self.now) → IsListed (positions_of result.now) j
            ↔ IsStagedRejectedIn c (arrivals_of looks) j }
    {
        self.study.settled()
    }

    /// Lets a look of a hypothesis of the case arrive, settles the study, and only then has the keeper append the look. The register
    /// must not be spent. The keeper is called once at most.
    ///
    /// - `AddFault::Refused` exactly if the arrival is refused. Nothing changes.
    /// - `AddFault::Wide` exactly if the settling stops part way. The look has arrived, and the rejections before the undefined one
    ///   stay.
    /// - `AddFault::Fault` only if the look was taken and the keeper's count of faults rose in this call. The look is taken.
    /// - `AddFault::NoMemory` if the keeper has no memory for the look. The look is taken, and the keeper's count of faults stays.
    ///
    /// After the last three the looks of the keeper are unchanged, and the register is spent.
    pub fn add<K: Keeper>(
        &mut self,
        alloc: Global,
        keeper: &mut K,
        look: &Look,
    ) -> Result<(), AddFault>
        requires below { look.now.hypothesis < size_of (study_in self.old) }
        requires fresh { is_spent self.old ≡ false }
        ensures study { (c : Content) → IsStudy c (study_in self.old) → IsStudy c (study_in self.new) }
        ensures taken { OnOk result ((c : Content) → IsStudy c (study_in self.old)
            → Takes c (looks_in self.old) look.now (looks_in self.new)) }
        ensures kept { OnOk result (K.looks keeper.new ≡ with_look (K.looks keeper.old) look.now) }
        ensures fault { IfErr result (λ fault. (c : Content) → IsStudy c (study_in self.old)
            → IsAddFault c (looks_in self.old) look.now (Rose (K.faults keeper.old) (K.faults keeper.new)) fault) }
        ensures unchanged { OnErr result (K.looks keeper.new ≡ K.looks keeper.old) }
        ensures refused { (f : StepFault) → result ≡ Err (AddFault.Refused f) → study_in self.new ≡ study_in self.old }
        ensures left { IfErr result (λ fault. (c : Content) → IsStudy c (study_in self.old)
            → Leaves c (looks_in self.old) look.now (looks_in self.new) fault) }
        ensures not_asked { (f : StepFault) → result ≡ Err (AddFault.Refused f) → keeper.new ≡ keeper.old }
        ensures wide_not_asked { (w : WideAt) → result ≡ Err (AddFault.Wide w) → keeper.new ≡ keeper.old }
        ensures memory { result ≡ Err AddFault.NoMemory → K.faults keeper.new ≡ K.faults keeper.old }
        ensures spent { is_spent self.new ≡ spent_after result }
        ensures size { size_of (study_in self.new) ≡ size_of (study_in self.old) }
        ensures later { K.faults keeper.old ≤ K.faults keeper.new }
        ensures counted { OnOk result (K.faults keeper.new ≡ K.faults keeper.old) }
        ensures turns { K.calls keeper.new ≡ K.calls keeper.old + turns_of result }
    {
        match take(&mut self.study, look) {
            Ok(()) => (),
            Err(TakeFault::Refused(fault)) => return Err(AddFault::Refused(fault)),
            Err(TakeFault::Wide(wide)) => {
                self.spent = true;
                return Err(AddFault::Wide(wide));
            }
        }
        match keeper.append(alloc, look) {
            Ok(()) => Ok(()),
            Err(fault) => {
                self.spent = true;
                Err(AddFault::from(fault))
            }
        }
    }
}
