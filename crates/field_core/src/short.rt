//! Whole numbers of 64 bits, which the machine computes in one word.
ghost use Rattle.std.specs.Prelude.{◌≡◌, ℤ, pos, ◌*ℤ◌, ◌<ℤ◌, int_div, Some};
ghost use Rattle.std.specs.Ordering.{int_eq};
ghost use Rattle.field_core.specs.Sized.{sized, gcd_of};

use crate::Whole;
use crate::binary_gcd::binary_gcd;
use std::marker::Model;

/// A whole number of 64 bits.
#[derive(Clone, Copy)]
pub struct Short {
    value: i64,
}

impl Model for Short {
    ghost Value = { ℤ };

    ghost view = { λ s. s.value };

    ghost inverse = { λ z. record { value = z } };
}

impl Short {
    /// Returns this number as a `Short`.
    pub fn new(value: i64) -> Short
        ensures { result ≡ value }
    {
        Short { value }
    }

    /// Returns the number as a `Whole`.
    pub fn whole(self) -> Whole
        ensures { result ≡ self }
    {
        Whole::new(self.value as i128)
    }

    /// Whether the number is 0.
    pub fn is_zero(self) -> bool
        ensures { result ≡ int_eq self (pos 0) }
    {
        self.value == 0
    }

    /// Returns the product, which is never too wide.
    pub fn times(self, other: Short) -> Whole
        ensures value { result ≡ self *ℤ other }
        ensures written { Some result ≡ sized (self *ℤ other) }
    {
        Whole::new(self.value as i128 * other.value as i128)
    }

    /// Returns the quotient by a number above 0, rounded towards 0. By 1 and by the number itself it is found without a division,
    /// which takes the machine longer than everything else here.
    pub fn over(self, by: Short) -> Short
        requires { pos 0 <ℤ by }
        ensures { result ≡ int_div self by }
    {
        if by.value == 1 {
            return self;
        }
        if by.value == self.value {
            return Short { value: 1 };
        }
        Short {
            value: self.value / by.value,
        }
    }

    /// Returns the greatest common divisor with a number above 0.
    pub fn common_divisor(self, other: Short) -> Short
        requires { pos 0 <ℤ other }
        ensures value { result ≡ gcd_of self other }
        ensures positive { pos 0 <ℤ result }
    {
        let divisor = binary_gcd(self.value.unsigned_abs(), other.value as u64);
        Short {
            value: divisor as i64,
        }
    }
}
