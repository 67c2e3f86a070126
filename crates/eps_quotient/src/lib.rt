//! Quotients of polynomials in epsilon: the kind of numbers with epsilon.
//!
//! Proved:
//! - `EpsQuotient` is a `Number`: each result that isn't refused is exact and lowered, and it is refused exactly if a part of
//!   the written operation is too wide. Sign and limit are those of the number.
//! - `new`: `norm`, `value`, `none`. `from_parts`: `written`, `value` (the number with these coefficients of epsilon, or
//!   refused exactly if the written sum is undefined), `constant` (its denominator is a constant). `of`, `numerator`,
//!   `denominator`.
//! - `limit`: the limit of the quotient of two polynomials, as that of their norm.
//! - `print`: `printed`, `unchanged`. `read`: `denoted` (the norm of the two polynomials that the text denotes, exactly if it is
//!   in the grammar).
//! - Laws in `src/laws.rt`: `a_stored_quotient_is_its_norm`, `a_printed_quotient_reads_back`.
#![tactic(auto)]

pub mod laws;
mod limits;
mod lower;
mod pair;
mod print;
mod quotient;
mod read;
mod written;

pub use limits::limit;
pub use quotient::EpsQuotient;
