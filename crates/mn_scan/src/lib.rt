//! A scan of a frozen version: which pages it reads, leaf after leaf, and the pairs that it gathers
//! from them.
#![tactic(auto)]

mod error;
mod scan_run;
mod step;

pub use error::ScanError;
pub use scan_run::ScanRun;
pub use step::ScanStep;
