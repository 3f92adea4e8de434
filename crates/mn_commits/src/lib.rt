//! Commits: what is committed, once or never, and that all that nodes did has the meaning of one
//! flat memory; a program that computes it.
#![tactic(auto)]

mod commit_reader;
mod flat;
mod laws;

pub use commit_reader::{CommitReader, CommittedMini};
pub use flat::{IdKey, flat_after, id_key};
pub use laws::{
    abandoned_is_never, abandoned_lacks_vote, commits_are_flat, commits_once, execs_are_flat,
    forced_never_votes, given_up_is_never, memory_is_flat, no_is_not_committed,
    prepares_read_nothing, reads_are_flat, records_stay_sound, refused_is_never, seen_is_flat,
    spaces_agree, unkept_is_never, yes_has_votes,
};
