//! Laws of studies whose looks are kept, of texts of commands, and of the outcome of a study. Each function states laws that hold
//! of all cases, and does nothing.

ghost use Rattle.study_cli.specs.StudyStatements.{
  StudiesHaveOneEnd,
  RepliesDecide,
  KeptLooksDecide,
  TakenLooksAreFirst,
  StudiesHaveOneOutcome,
};
ghost use Rattle.study_cli.specs.CommandStatements.{CommandsAreOfLines, FaultsAreBadLines, FaultsAreFirst};

/// Kept looks and commands have one end: one answer with the looks that are added, or one refusal, and not both.
pub fn studies_have_one_end()
    ensures { StudiesHaveOneEnd }
{}

/// If commands are answered to their end, the rejections are exactly those of the staged closed test on all looks that are kept
/// then, in whatever order they came. Whoever opens these looks again has the same rejections in the same order. The text is
/// the report of the replies, and each showing in it says how many looks are kept by then, and what is rejected on them.
pub fn kept_looks_decide()
    ensures replies { RepliesDecide }
    ensures end { KeptLooksDecide }
{}

/// If commands stop part way, the looks that are added are the first of those that all of them take.
pub fn taken_looks_are_first()
    ensures { TakenLooksAreFirst }
{}

/// A text denotes commands exactly if its lines that aren't skipped denote them, one each. Its first fault is that of the
/// first line that denotes no command, which is where no text of commands continues.
pub fn commands_are_read_by_lines()
    ensures said { CommandsAreOfLines }
    ensures fault { FaultsAreBadLines }
    ensures first { FaultsAreFirst }
{}

/// Words, the bytes of a case and of commands, and kept looks have at most one outcome. It is one answer with the looks that
/// are added, or one refusal, and not both.
pub fn studies_have_one_outcome()
    ensures { StudiesHaveOneOutcome }
{}
