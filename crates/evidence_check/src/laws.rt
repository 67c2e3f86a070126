//! Laws of evidence. Each function states laws that hold of all valid entangled graphs or of all cases, and does nothing.

ghost use Rattle.evidence_check.specs.EvidenceStatements.{EvidenceListsLegalOrders, EvidenceListsRejections, EvidenceWithKeepsIsComplete};
ghost use Rattle.evidence_check.specs.EvidenceStatements.{EvidenceWithKeepsDecides};
ghost use Rattle.evidence_check.specs.CheckStatements.{ChecksAreSound, ChecksAreFair};
ghost use Rattle.evidence_check.specs.CaseCheck.{
  CaseChecksAreSound,
  CaseChecksAreFair,
  CaseChecksNameBroken,
  CheckedAreRejected,
  CheckedAreAllRejected,
};
ghost use Rattle.evidence_check.specs.DocumentStatements.{CasesHaveFrames, ReadingsAreDocuments, FaultsAreFirst, ReadingsAreEvidence};
ghost use Rattle.evidence_check.specs.DocumentStatements.{LinesSayOneEvidence};
ghost use Rattle.evidence_check.specs.DocumentStatements.{LinesSayTheirEvidence, StoredNumbersArePrinted, EvidenceTextsSayIt};
ghost use Rattle.evidence_check.specs.DocumentStatements.{FaultsAreWhereNoneGoesOn, NoneGoesOnIsFault};

use field_core::Number;

/// Evidence that meets its conditions lists a legal order, so the closed test rejects each hypothesis that it lists. If the
/// evidence has keeps for all others, the closed test rejects no other.
pub fn evidence_implies_rejections()
    ensures order { EvidenceListsLegalOrders }
    ensures rejected { EvidenceListsRejections }
    ensures complete { EvidenceWithKeepsIsComplete }
    ensures decides { EvidenceWithKeepsDecides }
{}

/// If the written check finds nothing, the evidence meets its conditions, and if it finds a broken condition, the evidence
/// doesn't.
pub fn checks_decide<F: Number>()
    ensures sound { ChecksAreSound F.kind F.IsStored }
    ensures fair { ChecksAreFair F.kind F.IsStored }
{}

/// If the check of a case finds nothing, the evidence meets its conditions. If it finds a broken condition, the evidence
/// doesn't: the condition that the number and the reason name is broken, and all before it are met.
pub fn case_checks_decide()
    ensures sound { CaseChecksAreSound }
    ensures fair { CaseChecksAreFair }
    ensures named { CaseChecksNameBroken }
{}

/// If the check of a case finds nothing, the closed test rejects each hypothesis of a step. If all others have keeps, it rejects
/// no other.
pub fn checked_hypotheses_are_rejected()
    ensures listed { CheckedAreRejected }
    ensures all { CheckedAreAllRejected }
{}

/// Each case has a frame: its names, its components, and its numbers by their texts.
pub fn cases_have_frames()
    ensures { CasesHaveFrames }
{}

/// What is read from a text is what its lines denote. If they denote nothing, the first fault is in the first line with which no
/// document continues, or the text ends too early. What is read for a case is evidence that fits the case.
pub fn readings_are_documents()
    ensures says { ReadingsAreDocuments }
    ensures fault { FaultsAreFirst }
    ensures evidence { ReadingsAreEvidence }
{}

/// Lines denote at most one evidence.
pub fn lines_say_one_evidence()
    ensures { LinesSayOneEvidence }
{}

/// The lines of evidence that fits a case denote this evidence, if each number is read from its text; stored numbers are. If
/// names and numbers are words, the text of the evidence denotes it too.
pub fn lines_say_their_evidence()
    ensures lines { LinesSayTheirEvidence }
    ensures numbers { StoredNumbersArePrinted }
    ensures text { EvidenceTextsSayIt }
{}

/// The first fault of a text is in the first line with which no document continues, or the text ends too early.
pub fn first_faults_end_documents()
    ensures there { FaultsAreWhereNoneGoesOn }
    ensures line { NoneGoesOnIsFault }
{}
