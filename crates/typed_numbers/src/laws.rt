//! Laws of readings.
ghost use Rattle.typed_numbers.specs.Promises.{IntervalsAreWhatRounds, ReadingsAreUnique, ReadingsAreNear};
ghost use Rattle.typed_numbers.specs.Promises.{ReadingsAreShortUnits, ReadableAreFromZeroToOne, ReadingsKeepOrder};
ghost use Rattle.typed_numbers.specs.Readings.{ReadingsAreByTheRules};

/// A fraction is in the interval of a double exactly if it rounds to it.
pub fn intervals_are_what_rounds()
    ensures { IntervalsAreWhatRounds }
{}

/// A double is read as one fraction at most.
pub fn readings_are_unique()
    ensures { ReadingsAreUnique }
{}

/// The reading of a double rounds to the double, or is above it by less than 10^-30.
pub fn readings_are_near()
    ensures { ReadingsAreNear }
{}

/// `reading_of` returns what the rules give, and nothing else.
pub fn readings_are_by_the_rules()
    ensures { ReadingsAreByTheRules }
{}

/// The reading of a double is from 0 to 1, and its denominator is at most 10^30.
pub fn readings_are_short_units()
    ensures { ReadingsAreShortUnits }
{}

/// Exactly the doubles from 0 to 1 have a reading.
pub fn readable_are_from_zero_to_one()
    ensures { ReadableAreFromZeroToOne }
{}

/// Readings keep the order of doubles: if a double is at most another, and both have a reading, the reading of the first is at
/// most that of the second.
pub fn readings_keep_order()
    ensures { ReadingsKeepOrder }
{}
