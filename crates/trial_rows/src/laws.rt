//! A law of rows. The function states it, and does nothing.
ghost use Rattle.trial_rows.specs.LesserRows.{MarksStayWhereDoublesFall};

/// Where the p-values of a row fall, its rejections stay. Let two rows on one case have status 0, and each double of the one be at
/// most that of the other. Then the one has a mark wherever the other has.
pub fn marks_stay_where_doubles_fall()
    ensures { MarksStayWhereDoublesFall }
{}
