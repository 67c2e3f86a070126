//! Why a text is not an edge expression.

/// Why a text gives no entry.
///
/// `Depth` is tested first and then `BadByte`. The other four are found while the expression is evaluated from left to
/// right; of one result the degree is tested before the parts.
#[derive(Clone, Copy, PartialEq, Eq, Debug)]
pub enum ExprFault {
    /// The text is not an edge expression, and this many bytes of it begin one.
    BadByte(usize),
    /// More than 32 parentheses are open at once.
    Depth,
    /// A divisor has a coefficient other than 0 above power 0.
    DivisorNotNumber,
    /// A divisor is 0.
    ZeroDivisor,
    /// A result has a degree above 4.
    Degree,
    /// A decimal has too many digits, or the reduced parts of a decimal, a product, a quotient or a partial sum pass
    /// 10^18.
    Part,
}
