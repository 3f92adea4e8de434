//! The coordinator of one minitransaction: which requests it sends, one after another, and how the
//! minitransaction ends. It has no log; it makes only the entries that the commit protocol allows
//! (Sinfonia, SOSP 2007).
#![tactic(auto)]

mod all_reads;
mod coordinator;
mod laws;
mod machine;
mod requests;
mod stage;
mod step;

pub use all_reads::AllReads;
pub use coordinator::Coordinator;
pub use laws::{done_is_settled, doubt_is_shown, failed_is_given_up};
pub use stage::Stage;
pub use step::{CoordStep, Outcome};
