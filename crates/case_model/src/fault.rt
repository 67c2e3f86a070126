//! Why drafts are refused.
use field_core::{List, NoMemory, Text, WideAt};

/// Where a number is in a draft. Components, hypotheses, stages, steps and arrivals are named by their places, from 0, in the
/// order in which a variant's comment has them.
#[derive(Clone, Copy, PartialEq, Eq)]
pub enum PartPlace {
    Alpha,
    /// Of a component.
    Share(usize),
    /// Of a component and a hypothesis.
    Weight(usize, usize),
    /// Of a component, from a hypothesis to a hypothesis.
    Edge(usize, usize, usize),
    /// Of a hypothesis.
    P(usize),
    /// Of a hypothesis and a stage.
    Spend(usize, usize),
    /// Of a hypothesis and a step of its table: the weight or a level of the step.
    Step(usize, usize),
    /// By its place in the list.
    Arrival(usize),
}

/// Why a draft is refused. The rows are tested in this order, each for all components, hypotheses and places of a list, in
/// ascending order, before the next. Numbers with long parts are tested in the order of `PartPlace`, and a table step by step.
/// Components, hypotheses, stages, steps and arrivals are named by their places, from 0. A variant with several places names the
/// component first, then the hypothesis (of an edge its start and then its end), then the stage or the step.
#[derive(Clone, Copy, PartialEq, Eq)]
pub enum CaseFault {
    /// There is no name.
    NoHypothesis,
    /// There are this many names, more than 64.
    TooMany(u64),
    /// A name isn't 1 to 32 bytes of ASCII letters and digits, `_`, `.` and `-`.
    NameForm(usize),
    /// A name is equal to an earlier one.
    DuplicateName(usize),
    /// There is no component.
    NoComponent,
    /// There are this many components, more than 8.
    TooManyComponents(u64),
    /// A part of a number passes its limit. The limit is 10,000 for the level and a fraction that is spent, and 10^30 for the
    /// denominator of a p-value. It is 10^18 for a share, a weight, a coefficient of an edge, and the weight or a level of a
    /// step.
    PartTooLong(PartPlace),
    /// The level isn't above 0 and at most 1.
    AlphaRange,
    /// The share of a component is below 0.
    ShareRange(usize),
    /// The shares sum above 1.
    ShareSum,
    /// A component hasn't exactly one weight for each hypothesis.
    WeightCount(usize),
    /// In a component, the weight of a hypothesis is below 0.
    WeightRange(usize, usize),
    /// The weights of a component sum above 1.
    WeightSum(usize),
    /// In a component, an edge from a hypothesis to itself isn't 0.
    SelfEdge(usize, usize),
    /// In a component, an edge has the ends of an earlier one.
    RepeatedEdge(usize, usize, usize),
    /// In a component, an edge is below 0 or above 1.
    EdgeRange(usize, usize, usize),
    /// In a component, the edges from a hypothesis sum above 1.
    RowSum(usize, usize),
    /// There are stages, and p-values that belong to none.
    Mixed,
    /// There are this many places of p-values, and not exactly one for each hypothesis.
    PCount(usize),
    /// Some p-value is given, and that of a hypothesis isn't.
    PMissing(usize),
    /// The p-value of a hypothesis is below 0 or above 1.
    PRange(usize),
    /// There are 0 stages.
    NoStage,
    /// There are this many stages, more than 12.
    TooManyStages(u64),
    /// A hypothesis spends nothing, or its list hasn't exactly one fraction for each stage, or its table has no step, or a step
    /// hasn't exactly one level for each stage. Or something is spent past the last hypothesis, at this place.
    SpendCount(usize),
    /// The table of a hypothesis has this many steps, more than 32.
    TooManySteps(usize, u64),
    /// In the table of a hypothesis, the weight of a step isn't above 0, is above 1, or isn't above that of the step before.
    StepOrder(usize, usize),
    /// The fraction of a hypothesis at a stage is below 0; or its level there is below 0 in some step, or below that of the
    /// step before.
    SpendRange(usize, usize),
    /// The fractions of a hypothesis sum above 1; or the levels of some step sum above the weight of the step times the level
    /// of the case.
    SpendSum(usize),
    /// The stage of an arrival isn't one of the stages.
    ArrivalStage(usize),
    /// An arrival has the hypothesis and the stage of an earlier one.
    ArrivalRepeated(usize),
    /// The p-value of an arrival is below 0 or above 1.
    ArrivalRange(usize),
    /// A part of a written sum of shares, weights, edges, fractions or levels, or of the weight of a step times the level
    /// of the case, passes its size. It is found where the row tests this sum, before the sum is compared.
    Wide(WideAt),
    /// Out of memory.
    NoMemory,
}

impl From<NoMemory> for CaseFault {
    ghost use Rattle.std.specs.Prelude.{◌≡◌};
    ghost use Rattle.case_model.specs.declared.fault.CaseFault.TheVariants.{NoMemory as OutOfMemory};

    ghost from_gives = { λ _ fault. fault ≡ OutOfMemory };

    fn from(_: NoMemory) -> CaseFault {
        CaseFault::NoMemory
    }
}

/// A refused draft's names, all of them in their order, and why it is refused.
#[derive(Drop)]
pub struct Refused {
    pub names: List<Text>,
    pub fault: CaseFault,
}
