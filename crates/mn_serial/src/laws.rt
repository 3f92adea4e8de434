ghost use Rattle.mn_serial.specs.OneHistory.{RunsHaveHistory, RunsAreOneHistory};
ghost use Rattle.mn_serial.specs.Meaning.{HistoryIsOne, CommittedStands, OnlyThoseStand};
ghost use Rattle.mn_serial.specs.Meaning.{PlansLieBehind, OnePlanEach, HoldsThroughout};
ghost use Rattle.mn_serial.specs.Meaning.{StaysOpened, EndsOpened, StopsLeaveOpened};
ghost use Rattle.mn_serial.specs.Meaning.{FrozenNeverChanges, ShortenedStaysOpened};
ghost use Rattle.mn_serial.specs.Settled.{PlacesAreSettled};

// Each law is the contract of a function that does nothing: what it says is proved, and may be
// used, by calling it.

// The history of a run

/// Every run from records that hold a store has a history.
pub fn runs_have_history()
    ensures { RunsHaveHistory }
{}

/// And it is one history: what was replied to or took effect, in commit order, and nothing else.
pub fn runs_are_one_history()
    ensures { RunsAreOneHistory }
{}

/// It has no other.
pub fn history_is_one()
    ensures { HistoryIsOne }
{}

/// Each operation whose plan is committed stands there, at the place of its commit.
pub fn committed_stands()
    ensures { CommittedStands }
{}

/// No other one does.
pub fn only_those_stand()
    ensures { OnlyThoseStand }
{}

/// A plan is committed after its operation's Begin.
pub fn plans_lie_behind()
    ensures { PlansLieBehind }
{}

/// Of each operation at most one plan is committed.
pub fn one_plan_each()
    ensures { OnePlanEach }
{}

// The store at each place

/// At every place the flat memory holds the store of the operations placed before it.
pub fn holds_throughout()
    ensures { HoldsThroughout }
{}

/// The records at every place are opened with the store there.
pub fn stays_opened()
    ensures { StaysOpened }
{}

/// After the last place that is the store of the whole history.
pub fn ends_opened()
    ensures { EndsOpened }
{}

/// Whatever stops and restarts come behind a run, the records that they leave are opened.
pub fn stops_leave_opened()
    ensures { StopsLeaveOpened }
{}

/// The contents that a page's or an entry's place had are equal if their numbers are.
pub fn places_are_settled()
    ensures { PlacesAreSettled }
{}

/// A version that is frozen at one place stands unchanged at every later one.
pub fn frozen_never_changes()
    ensures { FrozenNeverChanges }
{}

/// Where a first part of the records of some nodes is shortened, they stay opened with the same
/// store.
pub fn shortened_stays_opened()
    ensures { ShortenedStaysOpened }
{}
