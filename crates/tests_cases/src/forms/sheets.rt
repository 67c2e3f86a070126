//! Sheets that make cases, as they are written again, and sheets that are refused, with their rows and columns.
use crate::forms::checks::expect;
use case_csv::{CsvFault, RowKind, fits_sheet, read_csv, write_csv};
use case_model::{Case, CaseFault};
use edge_expression::ExprFault;
use field_core::{List, NoMemory};
use fraction::{Fraction, NumberFault};
use std::alloc::Global;
use std::test::Fail;

/// Returns the case of a sheet at the level 1/20.
fn read(alloc: Global, sheet: &[u8]) -> Result<Case, CsvFault> {
    let Ok(alpha) = Fraction::parse(b"1/20") else {
        return Err(CsvFault::NoMemory);
    };
    read_csv(alloc, sheet, alpha)
}

/// Returns the sheet that is written of the case that a sheet denotes.
fn rewritten(alloc: Global, sheet: &[u8]) -> Option<List<u8>> {
    let case = read(alloc, sheet).ok()?;
    if !fits_sheet(&case) {
        return None;
    }
    write_csv(alloc, &case).ok()
}

/// Whether a sheet denotes a case, and this is the sheet that is written of the case.
fn is_rewritten(alloc: Global, sheet: &[u8], written: &[u8]) -> bool {
    match rewritten(alloc, sheet) {
        Some(again) => again.as_slice() == written,
        None => false,
    }
}

/// What is written of one hypothesis with all the weight and a p-value.
const ONE: &str = "hypothesis,weight,p,H1\nH1,1,1/100,0\n";

/// The same as `ONE`, but with no p-value.
const BARE: &str = "hypothesis,weight,p,H1\nH1,1,,0\n";

/// What is written of two hypotheses.
const TWO: &str = "hypothesis,weight,p,H1,H2\nH1,1/2,1/10000,0,1-\\epsilon\nH2,1/2,3/100,1,0\n";

/// Sheets, and what is written of their cases.
const SHEETS: &[(&str, &str)] = table! {
    ("\"\",\"weight\",\"p\",\"H1\",\"H2\"\n\"H1\",0.5,1e-04,\"0\",\"1-\\epsilon\"\n\"H2\",0.5,0.03,\"1\",\"0\"\n", TWO),
    (TWO, TWO),
    ("hypothesis,weight,p,H1\nH1,1,0.01,0\n", ONE),
    (",weight,p,H1\nH1,1,0.01,0", ONE),
    (" \t,weight,p,H1\nH1,1,0.01,0\n", ONE),
    (",weight,p,H1\r\nH1,1,0.01,0\r\n", ONE),
    (",weight,p,H1\rH1,1,0.01,0\r", ONE),
    ("\n\n,weight,p,H1\n\r\n\rH1,1,0.01,0\n\n", ONE),
    ("\u{feff},weight,p,H1\nH1,1,0.01,0\n", ONE),
    ("\u{feff}\"hypothesis\",weight,p,H1\nH1,1,0.01,0\n", ONE),
    (" hypothesis ,\tweight, p , H1\n\tH1 \t, 1 ,\t0.01 , 0 \n", ONE),
    (",weight,p,\" H1 \"\n\"H1\t\",\" 1\",\"0.01 \",\"\t0\"\n", ONE),
    (",weight,p,\"H\"1\n\"H1\"\t,1,\"0\".01,0\n", ONE),
    (",weight,p,H1\nH1,+1.,1e-2,0*\\epsilon\n", ONE),
    (",weight,p,H1\nH1,1,,0\n", BARE),
    (",weight,p,H1\nH1,1, \t ,0\n", BARE),
    (",weight,p,H1\nH1,1,NA,0\n", BARE),
    (",weight,p,H1\nH1,1, NA\t,0-0\n", BARE),
    (",weight,p,H1\nH1,1,\"NA\",\\epsilon-\\epsilon\n", BARE),
    (",weight,p,H1,H2\nH1,0.25,NA,0,0\nH2,1/8,,1,0\n", "hypothesis,weight,p,H1,H2\nH1,1/4,,0,0\nH2,1/8,,1,0\n"),
    (",weight,p,H1,H2\nH1,1,0,0,0\nH2,0,1,0,0\n", "hypothesis,weight,p,H1,H2\nH1,1,0,0,0\nH2,0,1,0,0\n"),
    (",weight,p,H1,H2\nH1,1,,0, ( 1 - \\epsilon ) / 2 \nH2,0,,\\epsilon^2,0\n",
     "hypothesis,weight,p,H1,H2\nH1,1,,0,1/2-1/2*\\epsilon\nH2,0,,\\epsilon^2,0\n"),
    (",weight,p,a_b.C-9,_,-\na_b.C-9,1/3,,0,1/2,1/2\n_,1/3,,0,0,1\n-,1/3,,1,0,0\n",
     "hypothesis,weight,p,a_b.C-9,_,-\na_b.C-9,1/3,,0,1/2,1/2\n_,1/3,,0,0,1\n-,1/3,,1,0,0\n"),
    (",weight,p,NA,p\nNA,1/2,NA,0,1\np,1/2,NA,1,0\n", "hypothesis,weight,p,NA,p\nNA,1/2,,0,1\np,1/2,,1,0\n"),
};

#[test]
fn sheets_are_written_again(rt: HostRuntime) {
    for (sheet, written) in SHEETS {
        let again = is_rewritten(rt.alloc(), sheet.as_bytes(), written.as_bytes());
        expect(&rt, again, sheet);
    }
}

const EMPTY: RowKind = RowKind::Number(NumberFault::Empty);

const BAD_FIRST: RowKind = RowKind::Number(NumberFault::BadByte(0));

const BAD_SECOND: RowKind = RowKind::Number(NumberFault::BadByte(1));

const ZERO: RowKind = RowKind::Number(NumberFault::ZeroDenominator);

const DIGITS: RowKind = RowKind::Number(NumberFault::TooManyDigits);

const NO_EXPRESSION: RowKind = RowKind::Expr(ExprFault::BadByte(0));

const BROKEN: RowKind = RowKind::Expr(ExprFault::BadByte(1));

/// Sheets of which a record isn't allowed, is missing or is surplus, with the row and the column.
const ROWS: &[(&str, usize, usize, RowKind)] = table! {
    // The header.
    ("", 1, 1, RowKind::NoHeader),
    ("\n\r\n\r", 1, 1, RowKind::NoHeader),
    ("\u{feff}", 1, 1, RowKind::NoHeader),
    ("name,weight,p,H1\n", 1, 1, RowKind::Header),
    ("Hypothesis,weight,p,H1\n", 1, 1, RowKind::Header),
    ("\"hypothesis\n\",weight,p,H1\n", 1, 1, RowKind::Header),
    ("hypothesis\n", 1, 2, RowKind::Header),
    (" \n,weight,p,H1\n", 1, 2, RowKind::Header),
    (",p,weight,H1\n", 1, 2, RowKind::Header),
    (",Weight,p,H1\n", 1, 2, RowKind::Header),
    (",weight", 1, 3, RowKind::Header),
    (",weight,\n", 1, 3, RowKind::Header),
    (",weight,P,H1\n", 1, 3, RowKind::Header),
    // The records after it.
    (",weight,p,H1\n", 2, 1, RowKind::Count),
    (",weight,p,H1,H2\nH1,1,,0,0\n", 3, 1, RowKind::Count),
    (",weight,p,H1\nH1,1,,0\nH1,1,,0\n", 3, 1, RowKind::Count),
    (",weight,p,H1\nH1,1,,0\nH2\n", 3, 1, RowKind::Count),
    (",weight,p,H1\nH1,1,,0\n \n", 3, 1, RowKind::Count),
    (",weight,p\n\"\"\n", 2, 1, RowKind::Count),
    (",weight,p,H1\nH2,1,\n", 2, 1, RowKind::Width),
    (",weight,p,H1\nH1,1,,0,0\n", 2, 1, RowKind::Width),
    (",weight,p,H1\nH1,1,,0,\n", 2, 1, RowKind::Width),
    (",weight,p,H1\n \nH1,1,,0\n", 2, 1, RowKind::Width),
    (",weight,p,H1\n#c\nH1,1,,0\n", 2, 1, RowKind::Width),
    (",weight,p,H1\n\"H1,1,,0\n", 2, 1, RowKind::Width),
    (",weight,p,H1,H2\nH1,1,,0,0\nH2,x,,0\nx\n", 3, 1, RowKind::Width),
    (",weight,p,H1\nH2,x,,0\n", 2, 1, RowKind::Name),
    (",weight,p,H1\nh1,1,,0\n", 2, 1, RowKind::Name),
    (",weight,p,H1\n\"H1\n\",1,,0\n", 2, 1, RowKind::Name),
    (",weight,p,H1,H2\nH2,1,,0,0\nH1,0,,0,0\n", 2, 1, RowKind::Name),
    (",weight,p,H1,H2\nH1,1,,0,0\nH1,0,,0,0\n", 3, 1, RowKind::Name),
    (",weight,p,H1\nH1,,x,0\n", 2, 2, EMPTY),
    (",weight,p,H1\nH1, \t,x,0\n", 2, 2, EMPTY),
    (",weight,p,H1\nH1,NA,,0\n", 2, 2, BAD_FIRST),
    (",weight,p,H1\nH1,1 2,,0\n", 2, 2, BAD_SECOND),
    (",weight,p,H1\nH1,\"1\n\",,0\n", 2, 2, BAD_SECOND),
    (",weight,p,H1\nH1,1/0,y,z\n", 2, 2, ZERO),
    (",weight,p,H1\nH1,111111111111111111111111111111111111111,y,z\n", 2, 2, DIGITS),
    (",weight,p,H1\nH1,1,1/0,x\n", 2, 3, ZERO),
    (",weight,p,H1\nH1,1,na,z\n", 2, 3, BAD_FIRST),
    (",weight,p,H1\nH1,1,\"NA\n\",0\n", 2, 3, BAD_FIRST),
    (",weight,p,H1\nH1,1,N A,0\n", 2, 3, BAD_FIRST),
    (",weight,p,H1\nH1,1,,\n", 2, 4, NO_EXPRESSION),
    (",weight,p,H1\nH1,1,,NA\n", 2, 4, NO_EXPRESSION),
    (",weight,p,H1\nH1,1,,\"0,0\"\n", 2, 4, BROKEN),
    (",weight,p,H1\nH1,1,,\"0\n\"\n", 2, 4, BROKEN),
    (",weight,p,H1\nH1,1,,1/\\epsilon\n", 2, 4, RowKind::Expr(ExprFault::DivisorNotNumber)),
    (",weight,p,H1\nH1,1,,1/0\n", 2, 4, RowKind::Expr(ExprFault::ZeroDivisor)),
    (",weight,p,H1\nH1,1,,\\epsilon^5\n", 2, 4, RowKind::Expr(ExprFault::Degree)),
    (",weight,p,H1,H2\nH1,1,,0,x\n", 2, 5, NO_EXPRESSION),
    (",weight,p,H1,H2\nH1,1,,0,0\nH2,0,,-,x\n", 3, 4, BROKEN),
};

/// Sheets whose records are all allowed, and whose draft is refused.
const DRAFTS: &[(&str, CaseFault)] = table! {
    (",weight,p\n", CaseFault::NoHypothesis),
    (",weight,p,\"H1\n\"\n\"H1\n\",1,,0\n", CaseFault::NameForm(0)),
    (",weight,p,H 1\nH 1,1,,0\n", CaseFault::NameForm(0)),
    (",weight,p,H1,H1\nH1,1,,0,0\nH1,0,,0,0\n", CaseFault::DuplicateName(1)),
    (",weight,p,H1\nH1,2,,0\n", CaseFault::WeightSum(0)),
    (",weight,p,H1\nH1,1,,1\n", CaseFault::SelfEdge(0, 0)),
    (",weight,p,H1,H2\nH1,1,0,0,0\nH2,0,NA,0,0\n", CaseFault::PMissing(1)),
    (",weight,p,H1\nH1,1,-1,0\n", CaseFault::PRange(0)),
};

/// Whether the first record that isn't allowed is that of this row, by the cell of this column, for this kind of fault.
fn has_row_fault(alloc: Global, sheet: &str, row: usize, column: usize, kind: RowKind) -> bool {
    match read(alloc, sheet.as_bytes()) {
        Err(CsvFault::Row(at, cell, found)) => at == row && cell == column && found == kind,
        _ => false,
    }
}

#[test]
fn records_are_refused(rt: HostRuntime) {
    for (sheet, row, column, kind) in ROWS {
        let holds = has_row_fault(rt.alloc(), sheet, *row, *column, *kind);
        expect(&rt, holds, sheet);
    }
}

/// Whether each record is allowed, and the draft has this fault.
fn has_draft_fault(alloc: Global, sheet: &[u8], fault: CaseFault) -> bool {
    match read(alloc, sheet) {
        Err(CsvFault::Case(refused)) => refused.fault == fault,
        _ => false,
    }
}

#[test]
fn drafts_are_refused(rt: HostRuntime) {
    for (sheet, fault) in DRAFTS {
        let holds = has_draft_fault(rt.alloc(), sheet.as_bytes(), *fault);
        expect(&rt, holds, sheet);
    }
}

/// Appends the name at a place.
fn put_name(text: &mut List<u8>, place: usize) -> Result<(), NoMemory> {
    text.push(b'N')?;
    text.append_unsigned(place as u128)
}

/// Appends the header of a number of hypotheses.
fn put_header(text: &mut List<u8>, count: usize) -> Result<(), NoMemory> {
    text.append(b"hypothesis,weight,p")?;
    for place in 0..count {
        text.push(b',')?;
        put_name(text, place)?;
    }
    text.push(b'\n')
}

/// Appends a row of weight 0, without a p-value and with this number of edges of 0.
fn put_row(text: &mut List<u8>, place: usize, count: usize) -> Result<(), NoMemory> {
    put_name(text, place)?;
    text.append(b",0,")?;
    for _ in 0..count {
        text.append(b",0")?;
    }
    text.push(b'\n')
}

/// Returns the sheet of a number of hypotheses of weight 0, with no p-values and no edges.
fn sheet_of(alloc: Global, count: usize) -> Result<List<u8>, NoMemory> {
    let mut text = List::new(alloc);
    put_header(&mut text, count)?;
    for place in 0..count {
        put_row(&mut text, place, count)?;
    }
    Ok(text)
}

#[test]
fn sixty_four_hypotheses_are_a_case(rt: HostRuntime) -> Result<(), Fail> {
    let alloc = rt.alloc();
    let most = sheet_of(alloc, 64)?;
    assert!(rt; is_rewritten(alloc, most.as_slice(), most.as_slice()));
    let more = sheet_of(alloc, 65)?;
    assert!(rt; has_draft_fault(alloc, more.as_slice(), CaseFault::TooMany(65)));
    Ok(())
}
