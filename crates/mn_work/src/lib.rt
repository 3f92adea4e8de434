//! One try of an operation, as far as the client's own memory goes: what it wants to read next,
//! what it makes of the bytes that came, and the plan or the answer that it ends with. It knows no
//! request and no reply (Minuet, PVLDB 2012).
#![tactic(auto)]

mod attempt;
mod catalog;
mod causes;
mod child;
mod counts;
mod get;
mod grammar;
mod known;
mod next;
mod place;
mod scan;
mod seen;
mod task;
mod work;

pub use causes::refusal;
pub use known::Known;
pub use next::{Next, Taken};
pub use place::Place;
pub use task::Task;
pub use work::Work;
