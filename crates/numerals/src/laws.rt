//! The law of decimals.
ghost use Rattle.numerals.specs.Decimals.{DecimalsHaveTheLimitOfNumerals};

/// The limit of a decimal's digits is that of numerals.
#[tactic(auto, using(crate::proofs::DecimalLimits::decides_too_many))]
pub fn decimals_have_the_limit_of_numerals()
    ensures { DecimalsHaveTheLimitOfNumerals }
{}
