ghost use Rattle.mn_law.specs.Run.{ListsMakeRun, RunsFollowProtocol};
ghost use Rattle.mn_law.specs.Shown.{SeenIsShown, ShownStays, EntriesAreShown};
ghost use Rattle.mn_law.specs.Scans.{GatheredStays, LeavesAreGathered, GatheredIsShown};

// Each law is the contract of a function that does nothing: what it says is proved, and may be
// used, by calling it.

// Lists and runs

/// A log whose actors' lists are allowed and legal one by one is a run.
pub fn lists_make_run()
    ensures { ListsMakeRun }
{}

/// A run keeps the commit protocol.
pub fn runs_follow_protocol()
    ensures { RunsFollowProtocol }
{}

// What a list shows

/// What a list has seen its replies give. What an older list shows the newer one shows. A catalog
/// shows its entries.
pub fn lists_show_places()
    ensures seen { SeenIsShown }
    ensures stays { ShownStays }
    ensures entries { EntriesAreShown }
{}

// What a scan gathers

/// What a scan has gathered stays so with further reads.
pub fn gathered_stays()
    ensures { GatheredStays }
{}

/// A leaf that may come next brings its pairs within the bounds, as far as the limit allows.
pub fn leaves_are_gathered()
    ensures { LeavesAreGathered }
{}

/// At the limit, or where a leaf reaches the upper bound, what was gathered shows the scan's reply.
pub fn gathered_is_shown()
    ensures { GatheredIsShown }
{}
