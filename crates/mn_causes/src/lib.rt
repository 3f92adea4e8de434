//! Causes: why an operation was busy, and that one which nothing disturbs is not.
#![tactic(auto)]

mod laws;

pub use laws::{
    forced_by_other, forced_stands, lock_of_other, lock_was_held, moved_by_other, only_own_commits,
    path_by_other, undisturbed_is_answered, undisturbed_is_sure, up_is_sure,
};
