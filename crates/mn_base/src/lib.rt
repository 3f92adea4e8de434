//! The types of the store: keys, values, names, operations, replies and answers, and what they
//! mean.
#![tactic(auto)]

mod answer;
mod bytes;
mod copying;
mod error;
mod gate;
mod history;
mod ids;
mod key;
mod laws;
mod name;
mod numbers;
mod op;
mod order;
mod reply;
mod shared_op;
mod short_list;
#[cfg(test)]
mod tests;
mod value;

pub use answer::{Answer, Busy};
pub use bytes::{Bytes, are_zeros};
pub use copying::{TryCopy, copies_of};
pub use error::{BaseError, NoMemory};
pub use gate::{Gate, OpenGate, StopAt};
pub use history::{History, Past};
pub use ids::{Addr, ClientNo, NodeNo, Range, Tid, VersionNo};
pub use key::{Key, MAX_KEY};
pub use laws::{frozen_stays, history_goes_on, store_stays};
pub use name::{MAX_NAME, Name};
pub use numbers::{Counts, Nodes, Slots};
pub use op::{MAX_STEPS, Op, Step, Steps};
pub use order::{key_order, key_precedes};
pub use reply::{Found, Founds, Listing, Pair, Pairs, Reply, Version};
pub use shared_op::SharedOp;
pub use short_list::ShortList;
pub use value::{MAX_VALUE, Value};
