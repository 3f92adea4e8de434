//! The proxy of one client: a machine over the replies of memory nodes that runs one operation
//! after another. Each is tried with what the proxy keeps, the catalog and inner pages, and where
//! that is out of date again with what it reads anew, up to eight times (Minuet, PVLDB 2012).
#![tactic(auto)]

mod errand;
mod laws;
mod proxy;
mod step;

pub use laws::reads_take_one_call;
pub use proxy::Proxy;
pub use step::ProxyStep;
