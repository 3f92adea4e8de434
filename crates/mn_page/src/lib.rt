//! Pages of the version trees and entries of the catalog, and when the spaces of the memory nodes
//! hold a store.
#![tactic(auto)]

mod body_scan;
mod entry;
mod entry_read;
mod entry_write;
mod error;
mod fault;
mod fresh;
mod key_room;
mod laws;
mod low;
mod page;
mod page_front;
mod page_read;
mod page_ref;
mod page_scan;
mod page_write;
mod pages;
mod placed_page;
mod scan;
mod shared_page;
mod write;

pub use entry::{CatEntry, Entries};
pub use error::{BadPage, PageError};
pub use fresh::{base_bytes, base_space};
pub use laws::{
    base_holds_empty_store, child_is_shown, copies_are_pages, leaf_tells, leaf_tells_get,
    none_too_high,
};
pub use low::Low;
pub use page::{Body, Branches, Child, Page, number_after};
pub use page_ref::PageRef;
pub use pages::Pages;
pub use placed_page::PlacedPage;
pub use shared_page::SharedPage;
