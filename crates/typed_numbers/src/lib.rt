//! Doubles as fractions: what a number typed into R or Python is taken as.
//!
//! A double from 0 to 1 stands for all rationals that round to it. It is read by the first of three rules that gives a fraction:
//! 1. the rational with the least denominator, if that is at most 10,000;
//! 2. the decimal with the fewest places, if those are at most 30;
//! 3. the double rounded up to a multiple of 10^-30.
//!
//! Of several decimals with the fewest places it is the nearest to the double, of two equally near the one with the even
//! numerator.
//!
//! Proved:
//! - `reading`: `result` (it returns `reading_of` of its bits, for any 64 bits). It returns nothing for a NaN, an infinity, a
//!   value below 0 or a value above 1; minus zero is read as 0.
//! - Law `readings_are_by_the_rules`: `reading_of` returns what the three rules give, and nothing else. The rules speak of the
//!   kit's own rounding to binary64.
//! - Law `readings_are_unique`: the bits of a double have one reading at most.
//! - Law `readings_are_near`: a reading rounds to its double, or is above it by less than 10^-30.
//! - Law `readings_are_short_units`: a reading is from 0 to 1, and its denominator is at most 10^30.
//! - Law `readings_keep_order`: if a double is at most another one, its reading is at most that of the other.
//! - Law `readable_are_from_zero_to_one`: exactly the doubles from 0 to 1, as the kit compares doubles, have a reading.
//! - Law `intervals_are_what_rounds`: the fractions that round to a finite double, subnormal or not, are an interval, which
//!   `range_of` gives by the double's fields.
//!
//! No product in `reading` passes 128 bits, since 10^j is 5^j times a shift.
#![tactic(auto)]

mod decimals;
mod intervals;
pub mod laws;
mod readings;
mod simplest;
#[cfg(test)]
mod tests;

pub use readings::reading;
