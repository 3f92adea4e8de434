//! The recovery of one minitransaction that some node holds: its participants are forced to vote,
//! and then told the decision. Several recoveries may work on one id, beside its coordinator
//! (Sinfonia, SOSP 2007).
#![tactic(auto)]

mod recoverer;
mod stage;
mod step;

pub use recoverer::Recoverer;
pub use stage::RecovStage;
pub use step::RecovStep;
