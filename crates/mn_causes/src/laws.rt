ghost use Rattle.mn_causes.specs.Causes.{LockWasHeld, LockOfOther, ForcedStands, ForcedByOther};
ghost use Rattle.mn_causes.specs.Causes.{MovedByOther, PathByOther};
ghost use Rattle.mn_causes.specs.Undisturbed.{UpIsSure, OnlyOwnCommits, UndisturbedIsSure};
ghost use Rattle.mn_causes.specs.Undisturbed.{UndisturbedIsAnswered};

// Each law is the contract of a function that does nothing: what it says is proved, and may be
// used, by calling it.

// Why an operation was busy

/// Where an operation met a lock, the records held its range for another operation's id, unless
/// the node missed that id's decision, or got it before the Prepare.
pub fn lock_was_held()
    ensures { LockWasHeld }
{}

/// Of a client that asks for no list and forces nothing it was another operation's, unless the
/// node answered Down or Stopped to the Decide of it.
pub fn lock_of_other()
    ensures { LockOfOther }
{}

/// Where it was forced, the node's records say so from then on, and some actor forced it before.
pub fn forced_stands()
    ensures { ForcedStands }
{}

/// Of a client that asks for no list and forces nothing, that was another actor.
pub fn forced_by_other()
    ensures { ForcedByOther }
{}

/// Where bytes had moved, another operation's plan was committed since they were read, in the last
/// try.
pub fn moved_by_other()
    ensures { MovedByOther }
{}

/// Where the last try met a fault of path, another operation's plan had been committed within it.
pub fn path_by_other()
    ensures { PathByOther }
{}

// An operation that nothing disturbs

/// An operation with each node up from its Begin to its answer is answered neither Down nor
/// InDoubt.
pub fn up_is_sure()
    ensures { UpIsSure }
{}

/// Where no other actor has an entry there, only the operation's own plans are committed
/// meanwhile.
pub fn only_own_commits()
    ensures { OnlyOwnCommits }
{}

/// An operation with no entry of another actor from its Begin to its answer, and each node up
/// meanwhile, meets no moved bytes and no fault of path, and no node that was down.
pub fn undisturbed_is_sure()
    ensures { UndisturbedIsSure }
{}

/// With nothing held at its Begin besides, and a client that asks for no list and forces nothing,
/// it is answered by a reply, or for want of slots, of sequence numbers or of memory.
pub fn undisturbed_is_answered()
    ensures { UndisturbedIsAnswered }
{}
