//! Adjusted p-values: the least levels at which the closed test rejects.
//!
//! Proved of `adjust`:
//! - `values`: each value is the least level from 0 to 1 at which the closed test rejects the hypothesis, and is reached. If the
//!   test rejects it at no such level, the value is 1, not reached.
//! - `fault` and `defined`: unless out of memory, the call is refused as too wide exactly if the written run is undefined, with
//!   the step and the place.
//!
//! Laws in `src/laws.rt`: at each level from 0 to 1 the closed test rejects a hypothesis exactly if its value is reached and is
//! at most the level. A case has at most one list of values.
#![tactic(auto)]

mod adjusted;
mod fault;
pub mod laws;

pub use adjusted::{Adjusted, adjust};
pub use fault::AdjustFault;
