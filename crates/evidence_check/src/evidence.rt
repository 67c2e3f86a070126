//! Evidence for the rejections of a case.
use eps_quotient::EpsQuotient;
use field_core::List;
use fraction::Fraction;

/// A step: the hypothesis that it rejects, and for each component what flows through the hypothesis of each earlier step.
#[derive(Drop)]
pub struct ProofStep<F> {
    pub hypothesis: usize,
    pub flows: List<List<F>>,
}

/// A keep: a retained hypothesis, and for each component its exit from the hypothesis of each step.
#[derive(Drop)]
pub struct KeepProof<F> {
    pub hypothesis: usize,
    pub exits: List<List<F>>,
}

/// The steps in their order, and in version 2 a keep for each other hypothesis, ascending. Version 1 has no keeps.
#[derive(Drop)]
pub struct Steps<F> {
    pub version: u8,
    pub steps: List<ProofStep<F>>,
    pub keeps: List<KeepProof<F>>,
}

/// Evidence in the numbers of its case: fractions if the case is plain, and else quotients in epsilon.
#[derive(Drop)]
pub enum Evidence {
    Plain(Steps<Fraction>),
    Eps(Steps<EpsQuotient>),
}
