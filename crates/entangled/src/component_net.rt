//! The nets of components, as they are opened.
ghost use Rattle.std.specs.Prelude.{◌≡◌, length, map};
ghost use Rattle.field_core.specs.Steps.{in_component};
ghost use Rattle.case_numbers.specs.Numbers.{Numbers};
ghost use Rattle.removal.specs.StoredGraph.{IsSquare, all_live};
ghost use Rattle.removal.specs.ByValue.{IsSound};
ghost use Rattle.field_core.specs.Made.{Makes};
ghost use Rattle.entangled.specs.States.{state_in, gathered_in, CanGather};

use crate::OpenFault;
use case_numbers::CaseNumber;
use eps_quotient::EpsQuotient;
use fraction::Fraction;
use removal::Net;
use row_removal::RowNet;
use std::alloc::Global;

/// A net that a component of a case is run in.
pub trait ComponentNet: Drop {
    type Value: CaseNumber;

    /// Which of the two kinds of numbers the net's values are.
    ghost numbers: { Numbers };

    /// The state of a net.
    ghost state: { Self → state_in numbers };

    /// Returns the net with these weights and edges, in which all hypotheses remain. There are at most 64 hypotheses, a weight
    /// and a row of edges for each, they are a valid graph, and quotients are over constants. A refusal is reported at the
    /// component.
    fn open(
        alloc: Global,
        component: usize,
        weights: &[Self::Value],
        edges: &[Self::Value],
    ) -> Result<Self, OpenFault>
        requires square { IsSquare (length weights.now) (length weights.now) (length edges.now) }
        requires sound { IsSound Self.Value.kind (all_live (map Self.Value.parts weights.now) (map Self.Value.parts edges.now)) }
        requires constants { CanGather numbers (all_live (map Self.Value.parts weights.now) (map Self.Value.parts edges.now)) }
        ensures { Makes state result (in_component component (gathered_in numbers (all_live
            (map Self.Value.parts weights.now) (map Self.Value.parts edges.now)))) };

    /// The net's values are numbers of that kind.
    ghost numbers_are: { Self.Value.numbers ≡ numbers };
}

impl ComponentNet for Net<Fraction> {
    ghost use Rattle.std.specs.Prelude.{refl};
    ghost use Rattle.case_numbers.specs.Numbers.{in_fractions};
    ghost use Rattle.removal.specs.NetView.{present_of};

    type Value = Fraction;

    ghost numbers = { in_fractions };

    ghost state = { present_of };

    fn open(
        alloc: Global,
        _: usize,
        weights: &[Fraction],
        edges: &[Fraction],
    ) -> Result<Net<Fraction>, OpenFault> {
        Ok(Net::try_new(alloc, weights, edges)?)
    }

    ghost numbers_are = { refl };
}

impl ComponentNet for RowNet {
    ghost use Rattle.std.specs.Prelude.{refl};
    ghost use Rattle.case_numbers.specs.Numbers.{in_quotients};
    ghost use Rattle.row_removal.specs.RowNetView.{present_rows};

    type Value = EpsQuotient;

    ghost numbers = { in_quotients };

    ghost state = { present_rows };

    fn open(
        alloc: Global,
        component: usize,
        weights: &[EpsQuotient],
        edges: &[EpsQuotient],
    ) -> Result<RowNet, OpenFault> {
        RowNet::try_new(alloc, weights, edges).map_err(|fault| fault.in_component(component))
    }

    ghost numbers_are = { refl };
}
