//! Laws of the outcomes of calls and of studies: an outcome always exists. Each function states laws, and does nothing.
ghost use Rattle.answers_exist.specs.Existence.{CallsHaveAnAnswer, StudiesHaveAnOutcome};
ghost use Rattle.answers_exist.specs.Runs.{DecisionsEnd, AdjustedRunsEnd, LooksEnd, SetRunsEnd, FlowRunsEnd};

/// For all words, cases and proofs there is an answer that they require. If contracts see the bytes of the case and of the proof,
/// there is no other, by `calls_have_one_answer` of `graph_cli`.
#[tactic(auto, using(crate::proofs::Calls::calls_have_an_answer))]
pub fn calls_have_an_answer()
    ensures { CallsHaveAnAnswer }
{}

/// For all words, cases, commands and kept looks a study has an outcome, which is an answer with the looks that are kept in
/// addition, or a refusal. If contracts see the bytes of case and commands and the kept looks, there is no other, by
/// `studies_have_one_outcome` of `study_cli`.
pub fn studies_have_an_outcome()
    ensures { StudiesHaveAnOutcome }
{}

/// The written runs of a case end, hypothesis by hypothesis, look by look or set by set. A run gives a result, or stops at the
/// first operation that is undefined.
pub fn written_runs_end()
    ensures decisions { DecisionsEnd }
    ensures adjusted { AdjustedRunsEnd }
    ensures looks { LooksEnd }
    ensures sets { SetRunsEnd }
    ensures flows { FlowRunsEnd }
{}
