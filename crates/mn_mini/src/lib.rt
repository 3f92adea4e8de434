//! Minitransactions: their items, the part of each node, what they mean on a memory, and what a
//! memory node answers (Sinfonia, SOSP 2007).
#![tactic(auto)]

mod doubt;
mod error;
mod item;
mod laws;
mod minitransaction;
mod own_bytes;
mod part;
mod read_bytes;
mod reads;
mod record;
mod record_bytes;
mod record_error;
mod record_read;
mod reply;
mod request;
mod shared_bytes;
mod shortening;
mod spaces;

pub use doubt::{Doubt, Doubts};
pub use error::MiniError;
pub use item::{ITEMS_IN_PLACE, Item, Items};
pub use laws::{answers_fit, held_parts_apart, parts_sound, short_is_like_whole};
pub use minitransaction::{MAX_ITEMS, MAX_NODES, Minitransaction};
pub use own_bytes::OwnBytes;
pub use part::{Part, PartItem};
pub use read_bytes::ReadBytes;
pub use reads::Reads;
pub use record::{Record, Records};
pub use record_bytes::spelled_once;
pub use record_error::RecordError;
pub use reply::NodeReply;
pub use request::Request;
pub use shared_bytes::SharedBytes;
pub use shortening::shorten;
pub use spaces::{MAX_ITEM, SPACE, Spaces};
