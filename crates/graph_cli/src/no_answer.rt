//! Why a command gives no answer for a case.
ghost use Rattle.case_model.specs.CaseView.{content};
ghost use Rattle.graph_cli.specs.Troubles.{HandsOn};

use crate::trouble::Trouble;
use answers::{Answer, Stop};
use case_model::Case;
use closed_test::ClosedFault;
use evidence_check::ProofText;
use field_core::NoMemory;
use refusals::When;
use sequential::RunFault;
use simes_test::SimesFault;
use staged_levels::LooksFault;
use std::alloc::Global;

/// A run along a legal order.
#[derive(Clone, Copy, PartialEq, Eq, Debug)]
pub enum Run {
    /// The decision.
    Deciding,
    /// The adjusted values.
    Adjusting,
    /// The flows of evidence.
    Flows,
}

/// Why a command gives no answer for a case.
#[derive(Clone, Copy, PartialEq, Eq, Debug)]
pub enum NoAnswer {
    /// The command refuses the case for this trouble.
    Refused(Trouble),
    /// Out of memory.
    NoMemory,
}

impl NoAnswer {
    ghost use Rattle.std.specs.Prelude.{◌≡◌};
    ghost use Rattle.case_model.specs.CaseView.{content};
    ghost use Rattle.graph_cli.specs.Troubles.{of_run, StopsFor};

    /// Returns why a run ended without an answer.
    pub fn of_run(run: Run, fault: RunFault) -> NoAnswer
        ensures { result ≡ of_run run fault }
    {
        match (run, fault) {
            (Run::Deciding, RunFault::Wide(step, wide)) => {
                NoAnswer::Refused(Trouble::Wide(When::Step(step), wide))
            }
            (Run::Adjusting, RunFault::Wide(step, wide)) => {
                NoAnswer::Refused(Trouble::Wide(When::AdjustedStep(step), wide))
            }
            (Run::Flows, RunFault::Wide(step, wide)) => {
                NoAnswer::Refused(Trouble::Wide(When::EvidenceStep(step), wide))
            }
            (_, RunFault::NoMemory) => NoAnswer::NoMemory,
        }
    }

    /// Returns the stop of a call whose command gives no answer for this reason: that at the trouble, or out of memory.
    pub fn stop(self, alloc: Global, case: &Case) -> Stop
        ensures { StopsFor (content case.now).names self result }
    {
        match self {
            NoAnswer::Refused(trouble) => trouble.stop(alloc, case),
            NoAnswer::NoMemory => Stop::NoMemory,
        }
    }
}

/// Returns a command's answer as it is; if it gives none, the stop of the call.
pub fn ending_of(
    alloc: Global,
    case: &Case,
    given: Result<Answer, NoAnswer>,
) -> Result<Answer, Stop>
    ensures { HandsOn (content case.now).names given result }
{
    match given {
        Ok(answer) => Ok(answer),
        Err(none) => Err(none.stop(alloc, case)),
    }
}

impl From<Trouble> for NoAnswer {
    ghost use Rattle.std.specs.Prelude.{◌≡◌};
    ghost use Rattle.graph_cli.specs.declared.no_answer.NoAnswer.TheVariants.{Refused};

    ghost from_gives = { λ trouble e. e ≡ Refused trouble };

    fn from(trouble: Trouble) -> NoAnswer {
        NoAnswer::Refused(trouble)
    }
}

impl From<NoMemory> for NoAnswer {
    ghost use Rattle.std.specs.Prelude.{◌≡◌};
    ghost use Rattle.graph_cli.specs.declared.no_answer.NoAnswer.TheVariants.{NoMemory};

    ghost from_gives = { λ _ e. e ≡ NoMemory };

    fn from(_: NoMemory) -> NoAnswer {
        NoAnswer::NoMemory
    }
}

impl From<ClosedFault> for NoAnswer {
    ghost use Rattle.std.specs.Prelude.{◌≡◌};
    ghost use Rattle.graph_cli.specs.Troubles.{of_sets};

    ghost from_gives = { λ f e. e ≡ of_sets f };

    fn from(fault: ClosedFault) -> NoAnswer {
        match fault {
            ClosedFault::TooMany(n) => NoAnswer::Refused(Trouble::Closure(n)),
            ClosedFault::Wide(set, wide) => NoAnswer::Refused(Trouble::Wide(When::Set(set), wide)),
            ClosedFault::NoMemory => NoAnswer::NoMemory,
        }
    }
}

impl From<SimesFault> for NoAnswer {
    ghost use Rattle.std.specs.Prelude.{◌≡◌};
    ghost use Rattle.graph_cli.specs.Troubles.{of_simes};

    ghost from_gives = { λ f e. e ≡ of_simes f };

    fn from(fault: SimesFault) -> NoAnswer {
        match fault {
            SimesFault::Wide(set, wide) => {
                NoAnswer::Refused(Trouble::Wide(When::SimesSet(set), wide))
            }
            SimesFault::NoMemory => NoAnswer::NoMemory,
        }
    }
}

impl From<LooksFault> for NoAnswer {
    ghost use Rattle.std.specs.Prelude.{◌≡◌};
    ghost use Rattle.graph_cli.specs.Troubles.{of_looks};

    ghost from_gives = { λ f e. e ≡ of_looks f };

    fn from(fault: LooksFault) -> NoAnswer {
        match fault {
            LooksFault::Opening(wide) => NoAnswer::Refused(Trouble::Wide(When::Opening, wide)),
            LooksFault::Arriving(n, wide) => {
                NoAnswer::Refused(Trouble::Wide(When::Arrival(n), wide))
            }
            LooksFault::NoMemory => NoAnswer::NoMemory,
        }
    }
}

impl From<ProofText> for NoAnswer {
    ghost use Rattle.std.specs.Prelude.{◌≡◌};
    ghost use Rattle.graph_cli.specs.Troubles.{of_text};

    ghost from_gives = { λ f e. e ≡ of_text f };

    fn from(fault: ProofText) -> NoAnswer {
        match fault {
            ProofText::Line(n, kind) => NoAnswer::Refused(Trouble::Proof(n, kind)),
            ProofText::NoMemory => NoAnswer::NoMemory,
        }
    }
}
