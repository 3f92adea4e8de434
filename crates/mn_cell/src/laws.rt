//! A law of runs: what it says is proved, and may be used, by calling it.
ghost use Rattle.mn_cell.specs.Runs.{PartsMakeRun};

/// The one log of a run's nodes and clients is a run. `Board::close` tells that it is one log, and
/// `into_parts` of a cell that the node's list is allowed.
pub fn parts_make_run()
    ensures { PartsMakeRun }
{}
