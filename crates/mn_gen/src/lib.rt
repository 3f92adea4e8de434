//! The generated script: transfers between the accounts of eight clients.
#![tactic(auto)]

mod accounts;
mod clients;
mod draws;
mod script;
mod summary;
mod sums;
mod work;

pub use script::gen_script;
pub use summary::summary_of;
