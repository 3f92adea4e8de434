ghost use Rattle.std.specs.Prelude.{◌≡◌, ◌∷◌, [], List, IfOk, OnOk};
ghost use Rattle.std.specs.Option.{option_map};
ghost use Rattle.mn_runs.specs.declared.entry.Entry.{Entry};
ghost use Rattle.mn_runs.specs.Commits.{committed_by};
ghost use Rattle.mn_commits.specs.CommitReader.{issued_of, acting_id, under_id, HasRead};

use crate::flat::{Standing, committed_in, effect_in, note, nothing};
use mn_base::{NoMemory, Tid};
use mn_mini::{Minitransaction, Request};
use mn_runs::Entry;
use std::alloc::Global;

/// A minitransaction that an entry commits, under its id.
#[derive(Clone, Copy)]
pub struct CommittedMini<'a> {
    pub tid: Tid,
    pub mini: &'a Minitransaction,
}

/// What the entries so far tell of issues, votes and stops: enough to say what the next one
/// commits.
#[derive(Drop)]
pub struct CommitReader<'a> {
    standing: Standing<'a>,
}

/// The id of a request that takes effect, if it votes or executes.
fn id_of(request: &Request) -> Option<Tid>
    ensures { result ≡ acting_id request.now }
{
    match request {
        Request::Prepare { tid, .. } => Some(*tid),
        Request::Exec { tid, .. } => Some(*tid),
        _ => None,
    }
}

/// The minitransaction under the id of the request that commits it.
fn under_id<'a>(
    effect: Option<&Request>,
    mini: Option<&'a Minitransaction>,
) -> Option<CommittedMini<'a>>
    ensures { option_map issued_of result
        ≡ under_id (option_map (λ r. r.now) effect.entry) (option_map (λ m. m.now) mini.entry) }
{
    match (effect, mini) {
        (Some(effect), Some(mini)) => {
            let tid = id_of(effect)?;
            Some(CommittedMini { tid, mini })
        }
        _ => None,
    }
}

impl<'a> CommitReader<'a> {
    /// No entry has come of so many. NoMemory: there was no memory for it.
    pub fn new(alloc: Global, entries: usize) -> Result<CommitReader<'a>, NoMemory>
        ensures { IfOk result (λ reader. HasRead reader []) }
    {
        Ok(CommitReader {
            standing: nothing(alloc, entries)?,
        })
    }

    /// Takes the next entry, and tells what it commits: at the last vote of its participants, or at
    /// its execution, which a restart may show later. NoMemory: there was no memory for it.
    pub fn follow(&mut self, entry: &'a Entry) -> Result<Option<CommittedMini<'a>>, NoMemory>
        requires { (past : List Entry) × HasRead self.old past }
        ensures commits { (past : List Entry) → HasRead self.old past
            → IfOk result (λ found. option_map issued_of found ≡ committed_by past entry.now) }
        ensures read { (past : List Entry) → HasRead self.old past
            → OnOk result (HasRead self.new (entry.now ∷ past)) }
    {
        let effect = effect_in(&self.standing, entry);
        let mini = committed_in(&self.standing, entry, effect);
        note(&mut self.standing, entry, effect)?;
        Ok(under_id(effect, mini))
    }
}
