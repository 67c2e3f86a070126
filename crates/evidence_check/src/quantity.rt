//! What the numbers of evidence are.
ghost use Rattle.std.specs.Prelude.{◌≡◌};
ghost use Rattle.evidence_check.specs.DocumentLines.{keyword, place_fault};

use crate::ProofKind;

/// What the numbers of evidence belong to: a step, or a keep.
#[derive(Clone, Copy)]
pub enum Quantity {
    Flow,
    Exit,
}

/// Returns the first word of the line of a number.
pub fn keyword(quantity: Quantity) -> &'static [u8]
    ensures { result.now ≡ keyword quantity }
{
    match quantity {
        Quantity::Flow => b"flow".as_slice(),
        Quantity::Exit => b"exit".as_slice(),
    }
}

/// Returns what is wrong if the component or the name isn't the one that must be there.
pub fn place_fault(quantity: Quantity) -> ProofKind
    ensures { result ≡ place_fault quantity }
{
    match quantity {
        Quantity::Flow => ProofKind::FlowPlace,
        Quantity::Exit => ProofKind::ExitPlace,
    }
}
