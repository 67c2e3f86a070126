//! Tests of fractions, of polynomials in epsilon and of their quotients, by tables of terms with values by hand.
#![tactic(auto)]

/// A table of rows. Each has a line of its own, since the formatter leaves what stands between the braces of a macro.
#[cfg(test)]
macro_rules! table {
    ($($row:expr),* $(,)?) => {
        &[$($row),*]
    };
}

#[cfg(test)]
mod fraction_vectors;
#[cfg(test)]
mod fractions;
#[cfg(test)]
mod polynomials;
#[cfg(test)]
mod quotients;
#[cfg(test)]
mod rows;
