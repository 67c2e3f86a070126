//! What a check answers.
use field_core::WideAt;

/// Why evidence doesn't meet its conditions. The numbers are the component and the step, both from 0.
#[derive(Clone, Copy, PartialEq, Eq)]
pub enum Reason {
    /// The hypothesis of the step is that of an earlier one.
    Repeated,
    /// A flow is below 0.
    Negative(usize, usize),
    /// A flow is above what is brought to its hypothesis.
    Exceeds(usize, usize),
    /// The level of the step is 0.
    NoLevel,
    /// The p-value is above the level of the step times alpha.
    AboveLevel,
    /// An exit is below 0.
    NegativeExit(usize, usize),
    /// An exit is below what leaves its hypothesis.
    ShortExit(usize, usize),
    /// The exits of a component allow a weight above 1.
    AboveOne(usize),
    /// At the level that the exits allow, the hypothesis of the keep is legal.
    Legal,
}

/// The answer of a check whose written operations are defined.
#[derive(Clone, Copy, PartialEq, Eq)]
pub enum Verdict {
    /// The evidence meets its conditions.
    Yes,
    /// The first broken condition, at this step or keep, counted from 1. The keeps count after the steps.
    No(usize, Reason),
}

/// The first written sum of a check that is undefined, at this step or keep, counted from 1; step 0 is the loading.
#[derive(Clone, Copy, PartialEq, Eq)]
pub struct CheckWide {
    pub step: usize,
    pub at: WideAt,
}
