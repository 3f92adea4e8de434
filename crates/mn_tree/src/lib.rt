//! The tree as a transaction changes it: its steps on the pages that were read, with splits and
//! copies, before any node is changed.
#![tactic(auto)]

mod addrs;
mod body;
mod draft;
mod effect;
mod error;
mod few;
mod held;
mod held_pages;
mod kept;
mod laws;
mod order;
mod overlay;
mod pairs;
mod stepped;
mod walk;
mod way;
mod write;
mod writer;

pub use error::AddError;
pub use laws::{
    add_keeps_draft, bad_paths_came, moves_are_few, moves_are_met, moves_are_placed,
    moves_are_steps, moves_come_once, moves_keep_tree, moves_may_be_quiet, moves_read,
    moves_take_pages, moves_take_steps, moves_tell, moves_touch_leaves, needs_are_absent,
    needs_are_slots, needs_may_come, path_tells, placed_are_pages, placed_are_put,
    placed_fill_slots, placed_have_room, placed_keeps_tree, placing_keeps_tree, reads_are_draft,
    step_keeps_tree, step_reads_changed, stepped_keeps_tree, transaction_keeps_tree,
    transaction_tells, tries_show_needs, unmet_moves_change_nothing, unmet_needs_nothing,
    walks_are_paths,
};
pub use overlay::Overlay;
pub use stepped::Stepped;
