//! A caller that works on a thread of its own.
ghost use Rattle.std.specs.Prelude.{◌≡◌, length};
ghost use Rattle.mn_actors.specs.Sight.{id_of};
ghost use Rattle.mn_cell.specs.Filled.{filled_in};
ghost use Rattle.mn_cluster.specs.Wired.{IsWired};
ghost use Rattle.mn_runs.specs.Protocol.{start_of, entries_of};
ghost use Rattle.mn_callers.specs.Desks.{IsDesk, RecoversOn};
ghost use Rattle.mn_callers.specs.Hands.{HasTurn, MovesOn, hand_of};
ghost use Rattle.mn_cluster.specs.Workers.{HasWorked, IsWorker, is_of_script};

use crate::alarm::Alarm;
use crate::marks::is_marked;
use crate::wires::Wires;
use mn_actors::{Board, Pass};
use mn_base::{ClientNo, Gate, NoMemory};
use mn_callers::{Client, Desk, FIRST_RECOVERER, Gated, Transport};
use mn_cell::{Cells, Named};
use mn_io::Disk;
use mn_law::CoreLaw;
use mn_script::{Mark, Script};
use std::alloc::Global;
use std::sync::Wait;

/// Who works: a client, with whether it found memory, or a recovery coordinator.
#[derive(Drop)]
pub enum Role {
    Client {
        client: Client,
        done: Result<(), NoMemory>,
    },
    Recoverer {
        desk: Desk,
    },
}

/// A caller with its pass.
#[derive(Drop)]
pub struct Worker {
    pub pass: Pass<CoreLaw>,
    pub role: Role,
}

/// What all threads share.
#[derive(Drop)]
pub struct Shared<'a, N: Named, D: Disk, G: Gate> {
    pub board: &'a Board<CoreLaw>,
    pub cells: &'a Cells<N, D>,
    pub nodes: u8,
    pub gate: &'a G,
    pub script: &'a Script,
    pub alarm: &'a Alarm,
}

/// Whether the recovery coordinator is one of the script's.
fn is_of_script(script: &Script, actor: ClientNo) -> bool
    ensures { result ≡ is_of_script script.now actor }
{
    actor.0 < FIRST_RECOVERER + script.recoverers()
}

/// A recovery coordinator looks at all nodes whenever clients have met trouble, and a last time
/// when none is at work any longer.
fn watch<T: Wait, X: Transport>(
    rt: &T,
    alloc: Global,
    alarm: &Alarm,
    desk: &mut Desk,
    table: &mut X,
    pass: &mut Pass<CoreLaw>,
)
    requires turn { HasTurn X.board (X.ready table.old) (hand_of pass.old desk.old.list) }
    requires desk { IsDesk X.start desk.old }
    ensures turn { HasTurn X.board (X.ready table.new) (hand_of pass.new desk.new.list) }
    ensures goes_on { MovesOn (X.went table.old table.new)
        (hand_of pass.old desk.old.list) (hand_of pass.new desk.new.list) }
    ensures desk { IsDesk X.start desk.new }
    ensures recovers { RecoversOn (entries_of desk.old.list.entries)
        (entries_of desk.new.list.entries) }
{
    let mut known = 0;
    for _ in rt.forever() {
        let heard = alarm.wait(rt, known);
        let _done = desk.sweep(alloc, table, pass);
        if heard.is_last {
            return;
        }
        known = heard.troubles;
    }
}

impl Worker {
    /// Does what it has to do beside the others: a client that is marked, and a recovery
    /// coordinator that the script lacks, have nothing.
    pub fn work<N: Named, D: Disk, T: Wait, G: Gate>(
        &mut self,
        rt: &T,
        alloc: Global,
        shared: &Shared<'_, N, D, G>,
    )
        requires wired { IsWired N.board (length N.records) (id_of shared.now.board.now)
            shared.now.nodes (filled_in shared.now.cells.now) }
        requires worker { IsWorker N.board (start_of N.records) shared.now.script.now self.old }
        ensures worked { HasWorked N.board (start_of N.records) shared.now.script.now
            self.old self.new }
    {
        let mut wires = Wires {
            rt,
            board: shared.board,
            cells: shared.cells,
            nodes: shared.nodes,
            alarm: shared.alarm,
        };
        let script = shared.script;
        match &mut self.role {
            Role::Client { client, done } => {
                let at = usize::from(client.list.client().0);
                if is_marked(script, at, Mark::Plain) {
                    let ops = script.clients()[at].ops.as_slice();
                    let mut gated = Gated {
                        inner: wires,
                        gate: shared.gate,
                    };
                    *done = client.all(alloc, &mut gated, &mut self.pass, script.points(), ops);
                    shared.alarm.leave(rt);
                }
            }
            Role::Recoverer { desk } => {
                if is_of_script(script, desk.list.client()) {
                    watch(rt, alloc, shared.alarm, desk, &mut wires, &mut self.pass);
                }
            }
        }
    }
}
