//! Fractions: the plain kind of numbers.
//!
//! Proved:
//! - `Fraction` is a `Number`. Each result that isn't refused is exact and in lowest terms. It is refused exactly if a part of
//!   the written operation is too wide. Contracts see it as its `Ratio`; `Ord` is the order of the numbers, and `Display`
//!   writes the bytes that `print` appends.
//! - `Fraction::new`: `lowest`, `value`, `zero`, `wide`. `is_zero`, `is_one`, `is_within`, `abs`.
//! - `Fraction::parse`: `value` (it returns `numeral_of` of its text). `Fraction::parse_decimal`: `value` (what `parse` returns,
//!   without the fault), `decimal` (the value of a decimal, or nothing if it has too many digits).
//! - `Fraction::print`: `printed`, `unchanged`.
//! - Laws in `src/laws.rt`: `numerals_are_read` (`numeral_of` agrees with the grammar of numerals and with the four faults,
//!   both ways), `a_printed_fraction_reads_back`, `short_operations_are_defined` (operations on short fractions aren't
//!   refused).
//!
//! Tables of numerals and of written operations at the edge of 127 bits, with values by hand or from a given table, are
//! in tests_numbers.
#![tactic(auto)]

mod fault;
mod fraction;
pub mod laws;
mod quotients;
mod short;
mod written;

pub use fault::FractionFault;
pub use fraction::Fraction;
pub use numerals::NumberFault;
