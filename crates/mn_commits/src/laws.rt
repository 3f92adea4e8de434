ghost use Rattle.mn_commits.specs.Laws.{RecordsStaySound, YesHasVotes, NoIsNotCommitted};
ghost use Rattle.mn_commits.specs.Laws.{CommitsOnce, AbandonedIsNever, RefusedIsNever};
ghost use Rattle.mn_commits.specs.Laws.{GivenUpIsNever, UnkeptIsNever, ForcedNeverVotes};
ghost use Rattle.mn_commits.specs.Laws.{AbandonedLacksVote, CommitsAreFlat, SpacesAgree};
ghost use Rattle.mn_commits.specs.Laws.{MemoryIsFlat, ReadsAreFlat, ExecsAreFlat};
ghost use Rattle.mn_commits.specs.Laws.{PreparesReadNothing, SeenIsFlat};

// Each law is the contract of a function that does nothing: what it says is proved, and may be
// used, by calling it.

// Votes and decisions

/// The records at every place fit together.
pub fn records_stay_sound()
    ensures { RecordsStaySound }
{}

/// A decided yes has the vote of each participant.
pub fn yes_has_votes()
    ensures { YesHasVotes }
{}

/// An id with a decided no is not committed.
pub fn no_is_not_committed()
    ensures { NoIsNotCommitted }
{}

// What is committed, and what never is

/// An id is committed at most once.
pub fn commits_once()
    ensures { CommitsOnce }
{}

/// An id that was abandoned is committed at no place.
pub fn abandoned_is_never()
    ensures { AbandonedIsNever }
{}

/// An id whose Exec was answered neither Done nor Stopped is committed at no place.
pub fn refused_is_never()
    ensures { RefusedIsNever }
{}

/// A plan that is given up when its operation is answered is committed at no place.
pub fn given_up_is_never()
    ensures { GivenUpIsNever }
{}

/// An id whose Exec a restart did not keep is committed at no place.
pub fn unkept_is_never()
    ensures { UnkeptIsNever }
{}

/// A node that was forced never votes.
pub fn forced_never_votes()
    ensures { ForcedNeverVotes }
{}

/// After an id was abandoned some participant lacks its vote for good.
pub fn abandoned_lacks_vote()
    ensures { AbandonedLacksVote }
{}

// Bytes

/// What commits finds its compares in the flat memory.
pub fn commits_are_flat()
    ensures { CommitsAreFlat }
{}

/// A byte of a node's space is the flat memory's, unless a committed part that is still held
/// writes it.
pub fn spaces_agree()
    ensures { SpacesAgree }
{}

/// The memory that the records make at a place is the flat memory there.
pub fn memory_is_flat()
    ensures { MemoryIsFlat }
{}

/// What a node reads for a part stands in the flat memory there.
pub fn reads_are_flat()
    ensures { ReadsAreFlat }
{}

/// An Exec that is done has its minitransaction's outcome on the flat memory there.
pub fn execs_are_flat()
    ensures { ExecsAreFlat }
{}

/// A Prepare that is done answers no reads.
pub fn prepares_read_nothing()
    ensures { PreparesReadNothing }
{}

/// What a client has seen stood in the flat memory where it was read.
pub fn seen_is_flat()
    ensures { SeenIsFlat }
{}
