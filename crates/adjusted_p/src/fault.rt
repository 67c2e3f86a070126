//! Why a case has no adjusted values.
use sequential::RunFault;

/// Why no adjusted values are made.
pub type AdjustFault = RunFault;
