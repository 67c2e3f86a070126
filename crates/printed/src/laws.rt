//! Laws of what is printed. Each function states laws, and does nothing.
ghost use Rattle.printed.specs.Accepted.{CanonIsAnsweredAsTheCase};
ghost use Rattle.printed.specs.Bounds.{BoundsAreOfTheClosedTest};
ghost use Rattle.printed.specs.Canon.{CanonIsReadAsTheCase, CanonTellsCasesApart};
ghost use Rattle.printed.specs.Catalogue.{CatalogueIsOfTheNamedGraphs};
ghost use Rattle.printed.specs.Confirmed.{EvidenceIsConfirmedByCheck};
ghost use Rattle.printed.specs.Lesser.{LesserPValuesRejectNoLess};
ghost use Rattle.printed.specs.Rules.{HolmGraphsAreTestedByHolm, SequencesAreTestedInOrder, FallbacksAreTestedByFallback};
ghost use Rattle.printed.specs.Rules.{GatesAreTestedByGatekeeping};
ghost use Rattle.printed.specs.Simes.{SimesReportsAreOfTheSimesTest};
ghost use Rattle.printed.specs.Stages.{StagesAgreeInEveryOrder};
ghost use Rattle.printed.specs.Study.{StudiesAreOfTheStagedTest};
ghost use Rattle.printed.specs.Weights.{WeightsAreOfTheIntersections};

/// What `canon` prints in a format with status 0 is read in that format as the case that was read, and as no other. Two cases
/// have the same text in a format exactly if they are the same case. A sheet doesn't hold its level, so this is stated of sheets
/// with the same level.
pub fn canon_is_read_as_the_case()
    ensures back { CanonIsReadAsTheCase }
    ensures apart { CanonTellsCasesApart }
{}

/// What `canon` prints with status 0 is accepted in place of the case, if it has at most 4,194,304 bytes. Each command that reads
/// a case has the same answers on the printed text, read in its format, as on the bytes of the case. (A case of fewer bytes may
/// have a canonical text of more, which is then refused as too long.)
pub fn canon_is_answered_as_the_case()
    ensures { CanonIsAnsweredAsTheCase }
{}

/// `test` rejects no less where p-values fall. Two cases differ at most in their p-values, of which some fall and none rises. If
/// both are answered with status 0, by whatever priorities and formats, the second report names each hypothesis that the first names.
pub fn lesser_p_values_reject_no_less()
    ensures { LesserPValuesRejectNoLess }
{}

/// What `evidence` prints with status 0, by any priority, is confirmed by `check`, if it has at most 4,194,304 bytes. On the same
/// bytes of the case, the only answer of `check` is `yes` with status 0. It lists the hypotheses of the steps in their order, and
/// keeps the others.
pub fn evidence_is_confirmed_by_check()
    ensures { EvidenceIsConfirmedByCheck }
{}

/// What `simes` prints with status 0 names as rejected exactly the hypotheses that the closed test of weighted Simes tests
/// rejects. It has one line for each set that isn't empty, with its bound by that test.
pub fn simes_reports_are_of_the_simes_test()
    ensures { SimesReportsAreOfTheSimesTest }
{}

/// What `weights` prints with status 0 has one line for each set that isn't empty, with the weights of its members in the
/// intersection. These weights suffice for the closed test, by whatever p-values and level.
pub fn weights_are_of_the_intersections()
    ensures { WeightsAreOfTheIntersections }
{}

/// What `bounds` prints with status 0 has one line for each set that isn't empty, with its bound by the closed test.
pub fn bounds_are_of_the_closed_test()
    ensures { BoundsAreOfTheClosedTest }
{}

/// What `catalogue` prints with status 0 is read as the case of the named graph. If the graph has a textbook rule, `test` on
/// the case with p-values ends with status 0, and names exactly what the rule rejects.
pub fn catalogue_is_of_the_named_graphs()
    ensures { CatalogueIsOfTheNamedGraphs }
{}

/// On any case with p-values and only fractions, `test` ends with status 0 and names exactly what the textbook rule of its graph
/// rejects at the case's level. The graph is Holm's, a fixed sequence, that of parallel gatekeeping, or a fallback graph whose
/// weights have a common denominator of at most 100,000,000.
pub fn textbook_graphs_are_tested_by_their_rules()
    ensures holm { HolmGraphsAreTestedByHolm }
    ensures sequence { SequencesAreTestedInOrder }
    ensures fallback { FallbacksAreTestedByFallback }
    ensures gatekeeping { GatesAreTestedByGatekeeping }
{}

/// What `stages` prints with status 0 for two cases that differ at most in the order of their arrivals has the same line
/// `rejected`.
pub fn stages_agree_in_every_order()
    ensures { StagesAgreeInEveryOrder }
{}

/// What `study` prints with status 0 is the report of the replies to its commands. Each line `show` names exactly what the
/// staged closed test rejects on the looks that are kept at this point. The lines `reject` after a look name what the test
/// rejects with this look, in addition to what it rejected before.
#[tactic(auto, using(crate::proofs::StudyPrinted::studies_of_test))]
pub fn studies_are_of_the_staged_test()
    ensures { StudiesAreOfTheStagedTest }
{}
