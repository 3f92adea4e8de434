//! The law of the store: which entries are legal by what their client's own list shows of pages,
//! catalogs, plans and answers.
#![tactic(auto)]

mod law;
mod laws;

pub use law::CoreLaw;
pub use laws::{
    gathered_is_shown, gathered_stays, leaves_are_gathered, lists_make_run, lists_show_places,
    runs_follow_protocol,
};
