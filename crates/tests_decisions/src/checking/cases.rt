//! Cases, and evidence for them.
pub use crate::cases::{IMPROVED_GATEKEEPING as GATEKEEPING, SEQUENCE as FIXED, case_of, expect};

/// Evidence for a fixed sequence of three hypotheses, of which the second and the third are retained.
pub const FIXED_EVIDENCE: &str =
    "evidence 2\nstep H1\nkeep H2\nexit 1 H1 1\nkeep H3\nexit 1 H1 0\nend\n";

/// Evidence for two families of two hypotheses, with edges in epsilon.
pub const GATEKEEPING_EVIDENCE: &str =
    "evidence 2\nstep H1\nstep H3\nflow 1 H1 1/2\nstep H4\nflow 1 H1 [1]/[2,-1]\n\
    flow 1 H3 [1]/[4,-2]\nstep H2\nflow 1 H1 1\nflow 1 H3 [1]/[0,2]\nflow 1 H4 [1]/[0,2]\nend\n";
