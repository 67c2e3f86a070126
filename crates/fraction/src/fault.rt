//! Why two whole numbers make no fraction.

/// Why two whole numbers make no fraction.
#[derive(Clone, Copy, PartialEq, Eq, Debug)]
pub enum FractionFault {
    /// The denominator is 0.
    ZeroDenominator,
    /// In lowest terms a part passes 2^127 - 1 in size.
    TooWide,
}
