//! Tests of looks that are kept in files: their rows, a keeper over files that the tests make, and runs of a study over one file.
//!
//! The whole program is tested over a file and a store in memory.
#![tactic(auto)]

#[cfg(test)]
mod files;
#[cfg(test)]
mod looks;
#[cfg(test)]
mod opened;
#[cfg(test)]
mod rows;
#[cfg(test)]
mod studies;
