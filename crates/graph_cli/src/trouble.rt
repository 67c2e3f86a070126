//! Why a command refuses a case, and how this is reported.
use answers::{Refusal, Stop};
use case_model::Case;
use evidence_check::ProofKind;
use field_core::{NoMemory, Text, WideAt};
use refusals::{When, closure_refusal, kind_refusal, proof_refusal, wide_refusal};
use std::alloc::Global;

/// Why a command refuses a case.
#[derive(Clone, Copy, PartialEq, Eq, Debug)]
pub enum Trouble {
    /// The p-values aren't of the kind that the command needs, or no document of the format can hold them.
    Kind,
    /// The case has this number of hypotheses, more than the command takes.
    Closure(u64),
    /// The first operation that is undefined, and when it is written.
    Wide(When, WideAt),
    /// The number of the first line of evidence that is not allowed there, from 1, and what is wrong with it.
    Proof(usize, ProofKind),
}

impl Trouble {
    ghost use Rattle.std.specs.Prelude.{◌≡◌, IfOk};
    ghost use Rattle.case_model.specs.CaseView.{content};
    ghost use Rattle.graph_cli.specs.Troubles.{line_of, StopsAt};

    /// Returns the stop of a call at this trouble: a refusal with the line that reports it, written with the names of the case.
    ///
    /// `NoMemory` if out of memory.
    pub fn stop(&self, alloc: Global, case: &Case) -> Stop
        ensures { StopsAt (content case.now).names self.now result }
    {
        match self.line(alloc, case.names()) {
            Ok(refusal) => Stop::Refused(refusal),
            Err(NoMemory) => Stop::NoMemory,
        }
    }

    /// Returns the line that reports the trouble, written with the names of the case, or `NoMemory`.
    fn line(&self, alloc: Global, names: &[Text]) -> Result<Refusal, NoMemory>
        ensures { IfOk result (λ refusal. refusal ≡ line_of names.now self.now) }
    {
        match *self {
            Trouble::Kind => kind_refusal(alloc),
            Trouble::Closure(n) => closure_refusal(alloc, n as usize),
            Trouble::Wide(when, wide) => wide_refusal(alloc, names, when, &wide),
            Trouble::Proof(n, kind) => proof_refusal(alloc, n, kind),
        }
    }
}
