//! Laws of flow runs. Each function states laws that hold of all nets or of all cases, and does nothing.

ghost use Rattle.evidence.specs.FlowStatements.{FlowRunsGiveSteps, FlowRunsGiveEvidence};
ghost use Rattle.evidence.specs.CaseFlows.{
  CaseFlowsMeetConditions,
  CaseFlowsListOrders,
  CaseFlowsKeepOthers,
  CaseFlowsAreOfTheCase,
  CaseFlowsAreNotRefused,
};
ghost use Rattle.evidence.specs.CaseFlows.{DecisionsAreCompleteOrders};
ghost use Rattle.evidence.specs.EvidenceText.{
  EvidenceTextsSayTheirs,
  EvidenceTextsSayNoOther,
  EvidenceTextsHaveNoFault,
  EvidenceTextsTellApart,
};

use removal::Remover;

/// The steps of a flow run of nets along a legal order are of the hypotheses of that order, and are good. Along a complete legal
/// order the run gives evidence that meets its conditions and has keeps for all other hypotheses.
pub fn flow_runs_make_evidence<R: Remover>()
    ensures steps { FlowRunsGiveSteps R.Value.kind R.graph R.IsProper R.removal }
    ensures evidence { FlowRunsGiveEvidence R.Value.kind R.graph R.IsProper R.removal }
{}

/// The flow run of a case along a complete legal order gives evidence that meets its conditions, lists the order and has keeps
/// for all other hypotheses. Its hypotheses are those of the case, and its numbers are stored as those of the case. The check of
/// the case finds no broken condition in it.
pub fn case_flows_are_evidence()
    ensures meets { CaseFlowsMeetConditions }
    ensures lists { CaseFlowsListOrders }
    ensures keeps { CaseFlowsKeepOthers }
    ensures stored { CaseFlowsAreOfTheCase }
    ensures accepted { CaseFlowsAreNotRefused }
{}

/// The text of evidence for a case denotes this evidence and no other, and has no fault, so it is read back as it was written.
/// Evidence with the same text is the same.
pub fn evidence_texts_are_read_back()
    ensures says { EvidenceTextsSayTheirs }
    ensures no_other { EvidenceTextsSayNoOther }
    ensures no_fault { EvidenceTextsHaveNoFault }
    ensures apart { EvidenceTextsTellApart }
{}

/// The steps of a decision are a complete legal order of the case, as `make` requires, whatever the priority.
pub fn decisions_are_complete_orders()
    ensures { DecisionsAreCompleteOrders }
{}
