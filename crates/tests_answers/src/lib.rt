//! Tests of sources, sinks and keepers, of the words of a call, of the lines of refusals and of the texts of reports, with each
//! line by hand.
#![tactic(auto)]

/// A table of rows. Each has a line of its own, since the formatter leaves what stands between the braces of a macro.
#[cfg(test)]
macro_rules! table {
    ($($row:expr),* $(,)?) => {
        &[$($row),*]
    };
}

#[cfg(test)]
mod devices;
#[cfg(test)]
mod keepers;
#[cfg(test)]
mod refusal_lines;
#[cfg(test)]
mod texts;
#[cfg(test)]
mod words;
