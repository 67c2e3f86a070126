//! Kinds of p-values.
ghost use Rattle.std.specs.Prelude.{◌↔◌, IsTrue};
ghost use Rattle.case_model.specs.CaseView.{content};

use case_model::{Case, Inputs};

/// The p-values that a command needs: any or none, one for each hypothesis, those of stages, or those of stages of which none has
/// arrived.
#[derive(Clone, Copy, PartialEq, Eq, Debug)]
pub enum InputKind {
    Any,
    Single,
    Staged,
    Awaited,
}

impl InputKind {
    ghost use Rattle.graph_cli.specs.Accepted.{IsOfKind};

    /// Whether a case has p-values of the kind.
    pub fn is_of(self, case: &Case) -> bool
        ensures { IsTrue result ↔ IsOfKind self (content case.now).inputs }
    {
        match (self, case.inputs()) {
            (InputKind::Any, _) => true,
            (InputKind::Single, Inputs::Single(_)) => true,
            (InputKind::Staged, Inputs::Staged(_)) => true,
            (InputKind::Awaited, Inputs::Staged(stages)) => stages.arrivals().is_empty(),
            _ => false,
        }
    }
}
