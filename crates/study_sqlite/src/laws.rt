//! Laws of rows and of the looks that they denote.
ghost use Rattle.study_sqlite.specs.RowStatements.{
  RowsSayOneLook,
  LooksHaveOneRow,
  RowsAreReadOneWay,
  RowsHaveOneFault,
  ReadRowsHaveNoFault,
};

/// Rows and looks correspond one to one: no row is that of two looks, and no look has two rows.
pub fn rows_and_looks_correspond()
    ensures look { RowsSayOneLook }
    ensures row { LooksHaveOneRow }
{}

/// Rows are read as one list of looks, or have one first row that is not the row of a look, and not both.
pub fn rows_have_one_reading()
    ensures read { RowsAreReadOneWay }
    ensures fault { RowsHaveOneFault }
    ensures apart { ReadRowsHaveNoFault }
{}
