//! Looks that a study takes: each arrives, and then the study is settled.
ghost use Rattle.std.specs.Prelude.{◌≡◌, ◌<◌, Err, OnOk, IfErr};
ghost use Rattle.case_model.specs.Content.{Content};
ghost use Rattle.staged_levels.specs.StudyContents.{IsStudy, size_of};
ghost use Rattle.staged_levels.specs.StudyView.{study};
ghost use Rattle.staged_levels.specs.declared.event.Event.TheVariants.{Arrive};
ghost use Rattle.staged_levels.specs.declared.event.StepFault.{StepFault};
ghost use Rattle.study_register.specs.Looking.{Takes, Follows};
ghost use Rattle.study_register.specs.RegisterFaults.{IsTakeFault, LeavesUntaken, IsStopAt, IsFirstStop};

use crate::RegisterFault;
use field_core::WideAt;
use fraction::Fraction;
use graph_io::Look;
use staged_levels::{Event, SettleFault, StepFault, Study};

/// Why a study doesn't take a look.
#[derive(Clone, Copy)]
pub(crate) enum TakeFault {
    /// The arrival of the look is refused.
    Refused(StepFault),
    /// The settling stops part way.
    Wide(WideAt),
}

/// Returns the arrival of a look.
fn event_of(look: &Look) -> Event
    ensures { result ≡ Arrive look.now.hypothesis look.now.stage look.now.p }
{
    Event::Arrive(
        look.hypothesis as usize,
        look.stage as usize,
        Fraction::of(look.p),
    )
}

/// Lets a look of a hypothesis of the case arrive, and settles the study. A refused arrival changes nothing. If the settling
/// stops part way, the look has arrived, and the rejections before the undefined one stay.
pub(crate) fn take(current: &mut Study, look: &Look) -> Result<(), TakeFault>
    requires { look.now.hypothesis < size_of (study current.old) }
    ensures study { (c : Content) → IsStudy c (study current.old) → IsStudy c (study current.new) }
    ensures taken { OnOk result ((c : Content) → IsStudy c (study current.old)
        → Takes c (study current.old).looks look.now (study current.new).looks) }
    ensures fault { IfErr result (λ fault. (c : Content) → IsStudy c (study current.old)
        → IsTakeFault c (study current.old).looks look.now fault) }
    ensures refused { (f : StepFault) → result ≡ Err (TakeFault.Refused f) → study current.new ≡ study current.old }
    ensures left { IfErr result (λ fault. (c : Content) → IsStudy c (study current.old)
        → LeavesUntaken c (study current.old).looks look.now (study current.new).looks fault) }
    ensures size { size_of (study current.new) ≡ size_of (study current.old) }
{
    if let Err(fault) = current.step(event_of(look)) {
        return Err(TakeFault::Refused(fault));
    }
    match current.settle() {
        Ok(()) => Ok(()),
        Err(SettleFault::Wide(wide)) => Err(TakeFault::Wide(wide)),
    }
}

/// Takes the look at a place, or refuses it if it names no hypothesis or can't be taken.
fn take_kept(current: &mut Study, place: usize, look: &Look) -> Result<(), RegisterFault>
    ensures study { (c : Content) → IsStudy c (study current.old) → IsStudy c (study current.new) }
    ensures taken { OnOk result ((c : Content) → IsStudy c (study current.old)
        → Takes c (study current.old).looks look.now (study current.new).looks) }
    ensures fault { IfErr result (λ fault. (c : Content) → IsStudy c (study current.old)
        → IsStopAt c (study current.old).looks place look.now fault) }
    ensures size { size_of (study current.new) ≡ size_of (study current.old) }
{
    if look.hypothesis as usize >= current.size() {
        return Err(RegisterFault::BadLook(place, *look));
    }
    match take(current, look) {
        Ok(()) => Ok(()),
        Err(TakeFault::Refused(_)) => Err(RegisterFault::BadLook(place, *look)),
        Err(TakeFault::Wide(wide)) => Err(RegisterFault::Wide(place, wide)),
    }
}

/// Takes looks in their order. It stops at the first that can't be taken, with its place from 1.
pub(crate) fn follow(current: &mut Study, looks: &[Look]) -> Result<(), RegisterFault>
    ensures study { (c : Content) → IsStudy c (study current.old) → IsStudy c (study current.new) }
    ensures followed { OnOk result ((c : Content) → IsStudy c (study current.old)
        → Follows c (study current.old).looks looks.now (study current.new).looks) }
    ensures fault { IfErr result (λ fault. (c : Content) → IsStudy c (study current.old)
        → IsFirstStop c (study current.old).looks 1 looks.now fault) }
    ensures size { size_of (study current.new) ≡ size_of (study current.old) }
{
    for i in 0..looks.len() {
        if let Err(fault) = take_kept(current, i + 1, &looks[i]) {
            return Err(fault);
        }
    }
    Ok(())
}
