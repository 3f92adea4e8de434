ghost use Rattle.std.specs.Prelude.{◌≡◌, ◌≤◌};
ghost use Rattle.std.specs.Option.{option_map};
ghost use Rattle.mn_coord.specs.Coordination.{stage_of, is_stopped_at_last};

use mn_mini::NodeReply;

/// How far a minitransaction has come.
#[derive(Clone, Copy, Debug, PartialEq, Eq)]
pub enum Stage {
    /// Its next participant is asked.
    Ask,
    /// All have voted yes; the next participant is told.
    Commit,
    /// A participant refused, and that has to be told first.
    Abandon,
    /// The next participant that voted yes is told no.
    Cancel,
    Committed,
    Failed,
    Doubt,
}

/// Whether the refusing reply is the last participant's stop.
fn is_stopped_last(participants: usize, done: usize, refused: &NodeReply) -> bool
    ensures { result ≡ is_stopped_at_last participants done refused.now }
{
    match refused {
        NodeReply::Stopped => participants > 0 && done == participants - 1,
        _ => false,
    }
}

/// The stage where of so many participants so many have answered Done, one has refused, that was
/// told, and so many were decided.
pub fn stage_for(
    participants: usize,
    done: usize,
    refused: Option<&NodeReply>,
    told: bool,
    decided: usize,
) -> Stage
    requires { done ≤ participants }
    ensures { result ≡ stage_of participants done
        (option_map (λ r. r.now) refused.entry) told decided }
{
    match refused {
        None if done < participants => Stage::Ask,
        None if participants > 1 && decided < participants => Stage::Commit,
        None => Stage::Committed,
        Some(reply) if is_stopped_last(participants, done, reply) => Stage::Doubt,
        Some(_) if participants == 1 => Stage::Failed,
        Some(_) if !told => Stage::Abandon,
        Some(_) if decided < done => Stage::Cancel,
        Some(_) => Stage::Failed,
    }
}
