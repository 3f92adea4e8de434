//! What a try of an operation read and is to write, and the minitransaction that it plans.
#![tactic(auto)]

mod attempt;
mod child;
mod error;
mod image;
mod laws;
mod seen;
mod spelled;
mod tries;
mod txn;

pub use attempt::{Placing, Tried, done_plan, unmet_plan};
pub use child::{branch_plan, snapshot_plan};
pub use error::PlanError;
pub use image::Image;
pub use laws::{
    attempts_stand_in_order, branch_is_planned, children_stand_in_order, done_is_planned,
    new_slots_are_next, plans_are_in_order, plans_count_on, plans_hold_their_bytes,
    plans_name_their_places, snapshot_is_planned, unmet_is_planned,
};
pub use seen::{SeenPage, page_at};
pub use spelled::{SpelledEntry, entry_bytes};
pub use tries::{
    done_may_be_planned, free_slots_are_left, planned_is_done, tries_show_causes,
    unmet_may_be_planned, worn_is_changed, worn_pages_show,
};
pub use txn::Txn;
