//! Numbers without a sign.
ghost use Rattle.std.specs.Prelude.{◌<◌, ◌^◌};

/// A quotient of two numbers of at most 2^127 - 1, of which the second isn't 0.
#[derive(Clone, Copy)]
pub struct Size {
    pub num: u128,
    pub den: u128,
    ghost some: { 0 < den },
    ghost num_size: { num < 2 ^ 127 },
    ghost den_size: { den < 2 ^ 127 },
}
