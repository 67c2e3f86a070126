//! Numerals, such as `-1.5e3` and `2/3`: their grammar, their values, and their reader.
//!
//! The grammar is `IsNumeral` in `specs/Numeral.antt`, and the value of a numeral is `IsNumeralOf`. `IsParseFault` states the
//! four faults of the other texts. `fraction` makes one function of the two, `numeral_of`.
//!
//! Proved:
//! - `parse`: `found` (the value of a numeral within the limits, in lowest terms), `fault` (which of the four faults, the
//!   length of the longest good prefix included).
//! - `decimal_len`: the longest prefix of a text with which a decimal begins (`longest`, `within`, `value`), by
//!   `DecimalPart`, which reads it byte by byte.
//! - `whole_number`: `found`, `below`, `other`. `are_digits`.
//! - `divided` and `reduced`: two sizes without their common divisors, as a fraction.
//! - `decimals_have_the_limit_of_numerals`, a law.
#![tactic(auto)]

mod byte_class;
mod check;
mod decimal;
mod decimal_machine;
mod digits;
mod fault;
pub mod laws;
mod lowest;
mod numeral_machine;
mod reading;
mod shift;
mod size;
mod value;
mod whole_numbers;

pub use decimal_machine::{DecimalPart, decimal_len};
pub use fault::NumberFault;
pub use lowest::{divided, reduced};
pub use reading::parse;
pub use size::Size;
pub use whole_numbers::{are_digits, whole_number};
