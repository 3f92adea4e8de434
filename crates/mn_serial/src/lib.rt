//! Meaning: every run from records that hold a store is one legal history.
#![tactic(auto)]

mod laws;

pub use laws::{
    committed_stands, ends_opened, frozen_never_changes, history_is_one, holds_throughout,
    one_plan_each, only_those_stand, plans_lie_behind, runs_are_one_history, runs_have_history,
    shortened_stays_opened, stays_opened, stops_leave_opened,
};
