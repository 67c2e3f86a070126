//! The closed test on the graphs of textbook rules.

ghost use Rattle.textbook.specs.TextbookStatements.{
  PositionsAreAscending,
  HasOneHolmNumber,
  FallbackGraphsDecideAsFallback,
  SequenceGraphsDecideAsSequence,
  HolmGraphsDecideAsHolm,
  FallbackGraphsAreValid,
  SequenceGraphsAreValid,
  HolmGraphsAreValid,
};
ghost use Rattle.textbook.specs.Gatekeeping.{GatekeepingGraphsAreValid};

/// On the graphs of Holm, of the fixed sequence and of fallback, the closed test rejects exactly what the rule rejects,
/// at each level from 0 to 1.
pub fn textbook_graphs_decide_as_rules()
    ensures fallback { FallbackGraphsDecideAsFallback }
    ensures sequence { SequenceGraphsDecideAsSequence }
    ensures holm { HolmGraphsDecideAsHolm }
{}

/// Graphs with the weights of fallback, that of the fixed sequence, that of Holm and that of parallel gatekeeping are valid.
pub fn textbook_graphs_are_valid()
    ensures fallback { FallbackGraphsAreValid }
    ensures sequence { SequenceGraphsAreValid }
    ensures holm { HolmGraphsAreValid }
    ensures gatekeeping { GatekeepingGraphsAreValid }
{}

/// The positions by ascending p-value are all positions, in this order, ties by position; and there is exactly one number of
/// them that Holm's rule rejects.
#[tactic(auto, using(case_model::proofs::ByPValue::by_p_value_length, case_model::proofs::ByPValue::by_p_value_below, case_model::proofs::ByPValue::by_p_value_all, case_model::proofs::ByPValue::by_p_value_ordered, case_model::proofs::HolmNumbers::one_number))]
pub fn holm_numbers_exist()
    ensures order { PositionsAreAscending }
    ensures number { HasOneHolmNumber }
{}
