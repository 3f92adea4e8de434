//! Plans: memories of pages, and what any plan of writes may rest on.
#![tactic(auto)]

mod laws;

pub use laws::{
    compares_tell, holds_one, next_slots_are_free, numbers_go_on, put_is_planned, split_is_planned,
    writes_leave_store, writes_leave_versions,
};
