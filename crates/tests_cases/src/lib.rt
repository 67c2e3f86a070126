//! Tests of cases, of their numbers, of named graphs and of the forms of a case.
//!
//! Drafts with each fault and with pairs of faults, and drafts that make cases, with several components and with stages. Also
//! positions in an index of names, sets of hypotheses, named graphs and samples, with values by hand. Lines and words,
//! expressions, texts, sheets and JSON are in `forms`.
#![tactic(auto)]

/// A table of rows. Each has a line of its own, since the formatter leaves what stands between the braces of a macro.
#[cfg(test)]
macro_rules! table {
    ($($row:expr),* $(,)?) => {
        &[$($row),*]
    };
}

#[cfg(test)]
mod accepted;
#[cfg(test)]
mod contents;
#[cfg(test)]
mod draft_faults;
#[cfg(test)]
mod drafts;
#[cfg(test)]
mod forms;
#[cfg(test)]
mod lines;
#[cfg(test)]
mod named_graphs;
#[cfg(test)]
mod numbers;
#[cfg(test)]
mod rows;
#[cfg(test)]
mod sets;
#[cfg(test)]
mod stage_faults;
#[cfg(test)]
mod stages;
