//! Why an expression has no value.
use crate::ExprFault;

/// Why an expression has no value.
#[derive(Clone, Copy)]
pub enum ValueFault {
    DivisorNotNumber,
    ZeroDivisor,
    Degree,
    Part,
}

impl From<ValueFault> for ExprFault {
    ghost use Rattle.std.specs.Prelude.{◌≡◌};
    ghost use Rattle.edge_expression.specs.EntryReading.{fault_of};

    ghost from_gives = { λ value fault. fault ≡ fault_of value };

    fn from(fault: ValueFault) -> ExprFault {
        match fault {
            ValueFault::DivisorNotNumber => ExprFault::DivisorNotNumber,
            ValueFault::ZeroDivisor => ExprFault::ZeroDivisor,
            ValueFault::Degree => ExprFault::Degree,
            ValueFault::Part => ExprFault::Part,
        }
    }
}
