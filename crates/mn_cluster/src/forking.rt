//! Callers that work at once.
ghost use Rattle.std.specs.Prelude.{◌≡◌, All, ℕ, Some, length, slice_get, vec_capacity};
ghost use Rattle.mn_actors.specs.Sight.{id_of};
ghost use Rattle.mn_cell.specs.Filled.{filled_in};
ghost use Rattle.mn_runs.specs.Protocol.{start_of};
ghost use Rattle.mn_cluster.specs.Wired.{IsWired};
ghost use Rattle.mn_cluster.specs.Workers.{HasWorked, IsWorker};
ghost use Rattle.mn_cluster.specs.declared.worker.Worker.{Worker as OneWorker};

use crate::worker::{Shared, Worker};
use mn_base::Gate;
use mn_cell::Named;
use mn_io::Disk;
use std::alloc::Global;
use std::sync::Wait;
use std::thread;
use std::thread::Threads;

/// The workers do their work, each on a thread of its own where one can be made. Those that share a
/// thread are done from the last to the first: recovery coordinators, which wait for clients, stand
/// before them.
pub fn fork<N: Named + Send + Sync, D: Disk + Send, T: Threads + Wait + Sync, G: Gate + Sync>(
    rt: &T,
    alloc: Global,
    shared: &Shared<'_, N, D, G>,
    workers: &mut Vec<Worker>,
)
    requires wired { IsWired N.board (length N.records) (id_of shared.now.board.now)
        shared.now.nodes (filled_in shared.now.cells.now) }
    requires workers { All (λ w. IsWorker N.board (start_of N.records) shared.now.script.now w)
        workers.old.items }
    ensures count { length workers.new.items ≡ length workers.old.items }
    ensures worked { (k : ℕ) (w v : OneWorker) → slice_get workers.old.items k ≡ Some w
        → slice_get workers.new.items k ≡ Some v
        → HasWorked N.board (start_of N.records) shared.now.script.now w v }
    ensures room { vec_capacity workers.new ≡ vec_capacity workers.old }
{
    let count = workers.len();
    if count > 0 {
        let work = |_: usize, worker: &mut Worker|
            requires { IsWired N.board (length N.records) (id_of shared.now.board.now)
                shared.now.nodes (filled_in shared.now.cells.now)
                × IsWorker N.board (start_of N.records) shared.now.script.now worker.now }
            ensures { HasWorked N.board (start_of N.records) shared.entry.now.script.now
                worker.entry.now worker.exit.now }
        { worker.work(rt, alloc, shared) };
        thread::for_each_mut(rt, workers.as_mut_slice(), count, &work);
    }
}
