//! Powers of ten, by their exponents.
ghost use Rattle.std.specs.Prelude.{◌≤◌, ◌^◌};

/// How many times a number is multiplied by ten, and how many times it is divided.
#[derive(Clone, Copy)]
pub struct Shift {
    pub up: u128,
    pub down: u128,
    ghost near_up: { up ≤ 2 ^ 100 },
    ghost near_down: { down ≤ 2 ^ 100 },
}
