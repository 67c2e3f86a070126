//! Laws of CSV: the sheet of a case denotes the case.
ghost use Rattle.case_csv.specs.SheetStatements.{SheetsReadBack, SheetsTellCasesApart, SheetsAreCanonical};

/// The sheet of a case that a sheet can hold denotes that case, at its level. Cases of the same level and another content
/// have another sheet. The case that is read from the sheet of a case has that sheet.
pub fn sheets_read_back()
    ensures back { SheetsReadBack }
    ensures apart { SheetsTellCasesApart }
    ensures again { SheetsAreCanonical }
{}
