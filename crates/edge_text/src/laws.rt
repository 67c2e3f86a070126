//! Laws of texts: each denotes one draft, or has one first fault; and canonical texts denote their cases.
ghost use Rattle.edge_text.specs.CanonicalStatements.{CanonicalTextsReadBack, CanonicalTextsTellCasesApart, CanonicalTextsAreCanonical};
ghost use Rattle.edge_text.specs.DocumentStatements.{TextsSayTheirLines, PlacesAreOfTheForm, TextsCanEnd};
ghost use Rattle.edge_text.specs.DocumentStatements.{LinesOfNumbersAreRead, EdgesAreRead, LinesOfStagesAreRead};
ghost use Rattle.edge_text.specs.TextStatements.{TextsSayOneDraft, TextsHaveOneFault, TextsSayOrFail, TextsDontSayAndFail};
ghost use Rattle.edge_text.specs.TextStatements.{FirstFaultsEndDocuments, WhereNoneGoesOnIsFault, UnfinishedTextsEnd};
ghost use Rattle.edge_text.specs.TextStatements.{TextsHaveOneCase, TextsHaveOneRefusal, FaultsArentRefusals, CasesHaveNoFault};
ghost use Rattle.edge_text.specs.TextStatements.{TextsHaveEntriesOrFaults, TextsHaveOneEntry, TextsHaveOneExprFault, EntriesHaveNoFault};

/// A text denotes at most one draft.
pub fn texts_say_one_draft()
    ensures { TextsSayOneDraft }
{}

/// A text has at most one first fault.
pub fn texts_have_one_fault()
    ensures { TextsHaveOneFault }
{}

/// A text denotes a draft or has a first fault, and not both.
pub fn texts_say_or_fail()
    ensures each { TextsSayOrFail }
    ensures apart { TextsDontSayAndFail }
{}

/// The first fault of a text is in exactly the first line with which no document continues; if the lines only begin a
/// document, it is after the last line.
pub fn first_faults_end_documents()
    ensures there { FirstFaultsEndDocuments }
    ensures line { WhereNoneGoesOnIsFault }
    ensures end { UnfinishedTextsEnd }
{}

/// A text denotes what its lines say by the form of documents (`said`). From place to place the reader takes the same draft, or
/// reports the same fault on the same line (`places`). Some document begins with each text that only ends too early (`end`).
pub fn documents_are_read_by_places()
    ensures said { TextsSayTheirLines }
    ensures places { PlacesAreOfTheForm }
    ensures end { TextsCanEnd }
{}

/// A line is read as a line of a kind, with what it says, exactly if the relation of this kind holds of the line and of that.
pub fn lines_are_read()
    ensures numbers { LinesOfNumbersAreRead }
    ensures edges { EdgesAreRead }
    ensures stages { LinesOfStagesAreRead }
{}

/// A text has one reading: one case by its content, or one first fault, or one refusal of its draft.
pub fn texts_have_one_reading()
    ensures case { TextsHaveOneCase }
    ensures refusal { TextsHaveOneRefusal }
    ensures line { FaultsArentRefusals }
    ensures apart { CasesHaveNoFault }
{}

/// The canonical text of a case denotes that case. Cases with another content have another canonical text, and the case that
/// is read from a canonical text has this text as its canonical one.
pub fn canonical_texts_read_back()
    ensures back { CanonicalTextsReadBack }
    ensures apart { CanonicalTextsTellCasesApart }
    ensures again { CanonicalTextsAreCanonical }
{}

/// A text is an expression of one entry, or has one fault, and not both.
pub fn expressions_are_decided()
    ensures each { TextsHaveEntriesOrFaults }
    ensures entry { TextsHaveOneEntry }
    ensures fault { TextsHaveOneExprFault }
    ensures apart { EntriesHaveNoFault }
{}
