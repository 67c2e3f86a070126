//! Tests of decisions, with values by hand: rejections one by one, in any order and in each priority, events of studies,
//! adjusted p-values. Also the closed test of all intersections, Simes' test and bounds. The graphs that removals leave are in
//! `graphs`, and evidence is in `checking`.
#![tactic(auto)]

/// A table of rows. Each has a line of its own, since the formatter leaves what stands between the braces of a macro.
#[cfg(test)]
macro_rules! table {
    ($($row:expr),* $(,)?) => {
        &[$($row),*]
    };
}

#[cfg(test)]
mod adjusted;
#[cfg(test)]
mod bounds;
#[cfg(test)]
mod cases;
#[cfg(test)]
mod checking;
#[cfg(test)]
mod closed;
#[cfg(test)]
mod decisions;
#[cfg(test)]
mod graphs;
#[cfg(test)]
mod orders;
#[cfg(test)]
mod rows;
#[cfg(test)]
mod simes;
#[cfg(test)]
mod studies;
#[cfg(test)]
mod trials;
#[cfg(test)]
mod updates;
