ghost use Rattle.mn_coord.specs.Endings.{DoneIsSettled, FailedIsGivenUp, DoubtIsShown};

// Each law is the contract of a function that does nothing: what it says is proved, and may be
// used, by calling it.

/// A minitransaction that is committed was done at each participant, and is settled. After a read
/// another one may be issued.
pub fn done_is_settled()
    ensures { DoneIsSettled }
{}

/// One that failed is given up, and is settled. After a refusal another one may be issued; that a
/// node was down, or stopped, the list shows.
pub fn failed_is_given_up()
    ensures { FailedIsGivenUp }
{}

/// Of one that is in doubt the list shows where the node stopped.
pub fn doubt_is_shown()
    ensures { DoubtIsShown }
{}
