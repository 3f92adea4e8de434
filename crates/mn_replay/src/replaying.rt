//! A script that is run on nodes.
ghost use Rattle.std.specs.Prelude.{◌≡◌, [], Some, None, IfOk, IfErr};
ghost use Rattle.mn_actors.specs.declared.actor.Actor.{Actor as Who};
ghost use Rattle.mn_actors.specs.Lines.{IsActor};
ghost use Rattle.mn_actors.specs.Lists.{held};
ghost use Rattle.mn_actors.specs.Sight.{board_of, clients_of, id_of, nodes_of, view_of};
ghost use Rattle.mn_runs.specs.Protocol.{run_number, start_of, entries_of};
ghost use Rattle.mn_callers.specs.Failed.{FailsSo, IsDamage};
ghost use Rattle.mn_replay.specs.Follows.{Follows};
ghost use Rattle.mn_callers.specs.Plays.{NamesGiven};
ghost use Rattle.mn_callers.specs.Trace.{IsTrace, MayBegin, start_on};
ghost use Rattle.mn_callers.specs.Turn.{callers_count};

use crate::play::play;
use mn_actors::{Board, Pass};
use mn_base::OpenGate;
use mn_callers::{Begun, CALLERS, no_memory};
use mn_cell::{Named, RunFailed, Trace};
use mn_commits::records_stay_sound;
use mn_io::Disk;
use mn_law::{CoreLaw, runs_follow_protocol};
use mn_node::Node;
use mn_script::Script;
use std::alloc::Global;
use std::marker::Brand;

/// Plays a script on a board of its own.
fn play_on<N: Named, D: Disk>(
    alloc: Global,
    board: Board<CoreLaw>,
    all: Pass<CoreLaw>,
    nodes: Vec<Node<D>>,
    script: &Script,
    run: u32,
) -> Result<Trace<D>, RunFailed<D>>
    requires board { (id_of board ≡ N.board) × (board_of all ≡ N.board) }
    requires size { (nodes_of board ≡ script.now.nodes) × (clients_of board ≡ callers_count) }
    requires empty { (a : Who) → IsActor script.now.nodes callers_count a
        → held (view_of all) a ≡ Some [] }
    requires others { (a : Who) → ¬ IsActor script.now.nodes callers_count a
        → held (view_of all) a ≡ None }
    requires nodes { MayBegin script.now.nodes nodes.items }
    requires named { NamesGiven D.state D.faults N.records N.faults N.honest nodes.items }
    requires run { run ≡ run_number (start_of N.records) }
    ensures trace { IfOk result (λ trace. IsTrace D.state D.faults script.now nodes.items
        trace.nodes.items trace.log) }
    ensures follows { IfOk result (λ trace. Follows (start_on nodes.items) script.now
        (entries_of trace.log)) }
    ensures failed { IfErr result (λ failed. FailsSo D.state D.faults script.now nodes.items
        failed.nodes.items failed.log failed.cause) }
    ensures damaged { IfErr result (λ failed. IsDamage failed.cause
        → Follows (start_on nodes.items) script.now (entries_of failed.log)) }
{
    runs_follow_protocol();
    records_stay_sound();
    let gate = OpenGate;
    let mut begun = Begun::<N, D, OpenGate>::new(alloc, &gate, board, all, nodes, script, run)?;
    let played = play(alloc, &mut begun.stage, script);
    begun.end(alloc, script, played)
}

/// Runs a script on these nodes, one for each that the script says, numbered from 0 in order and
/// all up, in the run of this number: one above the greatest run in their records, or 1 where they
/// hold none. All is done on one thread, in the order of the script's schedule: first each id is
/// recovered that a node holds, then the acts are done, then all that each client has left; then
/// each node that is down is restarted, and each id recovered that a node holds.
///
/// `Disk`: while the run was opened or closed that node's disk failed. `Damaged`: at closing, when
/// the whole script was played, a node's disk had another list than the node, which an honest disk
/// never has. `NoMemory`: there was no memory for the run, and its log is empty. The nodes come
/// back as they are then.
pub fn replay<D: Disk>(
    alloc: Global,
    nodes: Vec<Node<D>>,
    script: &Script,
    run: u32,
) -> Result<Trace<D>, RunFailed<D>>
    requires nodes { MayBegin script.now.nodes nodes.items }
    requires run { run ≡ run_number (start_on nodes.items) }
    ensures trace { IfOk result (λ trace. IsTrace D.state D.faults script.now nodes.items
        trace.nodes.items trace.log) }
    ensures follows { IfOk result (λ trace. Follows (start_on nodes.items) script.now
        (entries_of trace.log)) }
    ensures failed { IfErr result (λ failed. FailsSo D.state D.faults script.now nodes.items
        failed.nodes.items failed.log failed.cause) }
    ensures damaged { IfErr result (λ failed. IsDamage failed.cause
        → Follows (start_on nodes.items) script.now (entries_of failed.log)) }
{
    match Board::<CoreLaw>::new(alloc, script.nodes(), CALLERS) {
        Ok((board, all)) => play_on::<Brand, D>(alloc, board, all, nodes, script, run),
        Err(_) => Err(no_memory(alloc, nodes)),
    }
}
