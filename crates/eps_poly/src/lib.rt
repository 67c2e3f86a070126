//! Polynomials in epsilon with whole coefficients, in place: 33 coefficients, for the powers 0 to 32.
//!
//! Proved, for polynomials of 33 whole coefficients of at most 2^127 - 1 in size, which contracts see as lists:
//! - `add`, `sub`, `mul`, and `checked_add`, `checked_mul`: `written` (what the written operation gives, or refused exactly if
//!   it is undefined), `exact` (a result is the sum or the product).
//! - `divide_exact`: `value` (the quotient by its definition), `found`, `only`, `none` (the one polynomial whose written
//!   product with the divisor is the dividend, exactly if there is one).
//! - `zero`, `constant`, `monomial`, `with`, `put`, `coefficient`, `is_zero`, `negate`, `content`, `low_order`,
//!   `degree`, `factor`, `core`, `lowered`, by their definitions; `==`.
//! - `add_assign`, `sub_assign`, `put_product`, `clear` and `lower` write in place, with the same values and refusals as
//!   `add`, `sub`, `mul`, `zero` and `lowered`. What is left of the polynomial after a refusal is in no clause.
//! - The law `polynomials_have_one_core`: each polynomial but 0 is c * epsilon^k * P in one way, where P is its core.
#![tactic(auto)]

pub mod laws;
mod numbers;
mod poly;
mod products;
mod quotients;

pub use poly::EpsPoly;
