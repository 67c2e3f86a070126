//! Why a text has no value.

/// Why a text has no value: the first of these that holds.
#[derive(Clone, Copy, PartialEq, Eq, Debug)]
pub enum NumberFault {
    /// The text has no byte.
    Empty,
    /// The text is not a numeral, and its longest prefix with which some numeral begins has this many bytes.
    BadByte(usize),
    /// The second part of a pair is 0.
    ZeroDenominator,
    /// The number has more digits than the limit of 38 allows.
    TooManyDigits,
}
