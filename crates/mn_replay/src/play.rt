//! A run that is played on one thread, act after act.
ghost use Rattle.std.specs.Prelude.{◌≡◌, ◌≤◌, ◌<◌, List, length, IfErr, MatchOption, OnOk, ⊤};
ghost use Rattle.mn_mini.specs.RecordGrammar.{IsTid};
ghost use Rattle.mn_script.specs.Script.{IsAct};
ghost use Rattle.mn_runs.specs.Calls.{issues_of};
ghost use Rattle.mn_runs.specs.declared.entry.Entry.{Entry};
ghost use Rattle.mn_runs.specs.Protocol.{start_of};
ghost use Rattle.mn_callers.specs.Causes.{IsCaused};
ghost use Rattle.mn_callers.specs.Clients.{last_shared};
ghost use Rattle.mn_callers.specs.Desks.{IsDesk};
ghost use Rattle.mn_callers.specs.Failed.{IsDamage};
ghost use Rattle.mn_callers.specs.Logs.{HasLog, IsFresh};
ghost use Rattle.mn_callers.specs.Plays.{AreReady, IsOfSome, IsPlay, StayReady, StaysPlay};
ghost use Rattle.mn_callers.specs.Recoveries.{bench_of};
ghost use Rattle.mn_callers.specs.Settled.{AreUpAndFree};
ghost use Rattle.mn_callers.specs.Stages.{AreFreeIfSound, GoesAs, state_of};
ghost use Rattle.mn_callers.specs.Turn.{ExtendsLog, IsTurn, turn_at};
ghost use Rattle.mn_replay.specs.Follows.{IsPlayed};
ghost use Rattle.mn_replay.specs.Schedule.{DoesAct, DoesActs, DoesWork, HaltsNode, RecoversFor};
ghost use Rattle.mn_replay.specs.Schedule.{RestartsNode, acts_of, last_acts};

use mn_actors::{Actor, Pass};
use mn_base::{ClientNo, NoMemory, NodeNo, OpenGate, Tid};
use mn_callers::{CLOSER, Desk, FIRST_RECOVERER, Move, Stage, Table};
use mn_cell::{Named, RunCause};
use mn_io::Disk;
use mn_law::CoreLaw;
use mn_script::{Act, Script};
use std::alloc::Global;

/// The recovery coordinator works: one call, or as far as it comes.
fn work<N: Named, D: Disk>(
    alloc: Global,
    desk: &mut Desk,
    table: &mut Table<N, D>,
    pass: &mut Pass<CoreLaw>,
    shared: Option<Tid>,
    to_the_end: bool,
) -> Result<(), NoMemory>
    requires turn { IsTurn N.board (length N.records) (turn_at table.old pass.old desk.old.list) }
    requires desk { IsDesk (start_of N.records) desk.old }
    requires id { MatchOption shared ⊤ IsTid }
    ensures turn { IsTurn N.board (length N.records) (turn_at table.new pass.new desk.new.list) }
    ensures goes_on { ExtendsLog (turn_at table.old pass.old desk.old.list)
        (turn_at table.new pass.new desk.new.list) }
    ensures desk { IsDesk (start_of N.records) desk.new }
    ensures does { OnOk result ((es : List Entry) → shared ≡ last_shared (issues_of es)
        → DoesWork to_the_end (length N.records) desk.old.list.client es (bench_of desk.old)
        (bench_of desk.new)) }
{
    if to_the_end {
        desk.recover(alloc, table, pass, shared)
    } else {
        desk.step(alloc, table, pass, shared)
    }
}

/// The recovery coordinator (from 1) works in its turn: one call, or as far as it comes.
fn recoverer_turn<N: Named, D: Disk>(
    alloc: Global,
    stage: &mut Stage<'_, N, D, OpenGate>,
    recoverer: u8,
    client: ClientNo,
    to_the_end: bool,
) -> Result<(), NoMemory>
    requires play { IsOfSome N.board (start_of N.records) (state_of stage.old) }
    requires recoverer { (1 ≤ recoverer) × (recoverer ≤ 4) }
    requires client { client.0 < length stage.old.callers.clients.items }
    ensures play { StaysPlay N.board (start_of N.records) (state_of stage.old)
        (state_of stage.new) }
    ensures ready { StayReady (start_of N.records) stage.old.callers stage.new.callers }
    ensures does { OnOk result (GoesAs (RecoversFor (length N.records) recoverer client
        to_the_end) (state_of stage.old) (state_of stage.new)) }
{
    let shared = stage.callers.clients[usize::from(client.0)].shared();
    let at = recoverer - 1;
    let actor = Actor::Client {
        client: ClientNo(FIRST_RECOVERER + at),
    };
    let mut pass = stage.calls.inner.board.split(&mut stage.rest, actor);
    let desk = &mut stage.callers.desks[usize::from(at)];
    let done = work(
        alloc,
        desk,
        &mut stage.calls.inner,
        &mut pass,
        shared,
        to_the_end,
    );
    stage.calls.inner.board.join(&mut stage.rest, pass);
    done
}

/// A node stops between two calls.
fn halt<N: Named, D: Disk>(
    stage: &mut Stage<'_, N, D, OpenGate>,
    node: NodeNo,
) -> Result<(), NoMemory>
    requires play { IsOfSome N.board (start_of N.records) (state_of stage.old) }
    requires node { node.0 < length N.records }
    ensures play { StaysPlay N.board (start_of N.records) (state_of stage.old)
        (state_of stage.new) }
    ensures ready { StayReady (start_of N.records) stage.old.callers stage.new.callers }
    ensures does { OnOk result (GoesAs (HaltsNode node) (state_of stage.old) (state_of stage.new)) }
{
    let actor = Actor::Client { client: CLOSER };
    let mut pass = stage.calls.inner.board.split(&mut stage.rest, actor);
    let done = stage
        .calls
        .inner
        .halt(&mut pass, &mut stage.callers.closer.list, node);
    stage.calls.inner.board.join(&mut stage.rest, pass);
    done
}

/// A node is restarted. One whose restart fails stays down.
fn restart<N: Named, D: Disk>(alloc: Global, stage: &mut Stage<'_, N, D, OpenGate>, node: NodeNo)
    requires play { IsOfSome N.board (start_of N.records) (state_of stage.old) }
    requires node { node.0 < length N.records }
    ensures play { StaysPlay N.board (start_of N.records) (state_of stage.old)
        (state_of stage.new) }
    ensures ready { StayReady (start_of N.records) stage.old.callers stage.new.callers }
    ensures does { GoesAs (RestartsNode node) (state_of stage.old) (state_of stage.new) }
{
    let actor = Actor::Client { client: CLOSER };
    let mut pass = stage.calls.inner.board.split(&mut stage.rest, actor);
    let _done = stage
        .calls
        .inner
        .restart(alloc, &mut pass, &mut stage.callers.closer.list, node);
    stage.calls.inner.board.join(&mut stage.rest, pass);
}

/// Does an act. NoMemory: there was no memory to begin it.
fn do_act<N: Named, D: Disk>(
    alloc: Global,
    stage: &mut Stage<'_, N, D, OpenGate>,
    script: &Script,
    act: Act,
) -> Result<(), NoMemory>
    requires play { IsPlay N.board (start_of N.records) script.now (state_of stage.old) }
    requires ready { AreReady (start_of N.records) script.now stage.old.callers }
    requires act { IsAct script.now.nodes script.now.recoverers script.now.clients act }
    requires recoverers { script.now.recoverers ≤ 4 }
    ensures play { IsPlay N.board (start_of N.records) script.now (state_of stage.new) }
    ensures ready { OnOk result (AreReady (start_of N.records) script.now stage.new.callers) }
    ensures does { OnOk result (GoesAs (DoesAct script.now act) (state_of stage.old)
        (state_of stage.new)) }
{
    match act {
        Act::Step { client } => stage.client_turn(alloc, script, client, Move::Step),
        Act::Plan { client } => stage.client_turn(alloc, script, client, Move::Plan),
        Act::Go { client } => stage.client_turn(alloc, script, client, Move::Go),
        Act::All { client } => stage.client_turn(alloc, script, client, Move::All),
        Act::Halt { node } => halt(stage, node),
        Act::Restart { node } => {
            restart(alloc, stage, node);
            Ok(())
        }
        Act::Rstep { recoverer, client } => {
            recoverer_turn(alloc, stage, recoverer, client, false)
        }
        Act::Recover { recoverer, client } => {
            recoverer_turn(alloc, stage, recoverer, client, true)
        }
    }
}

/// Does the acts of the schedule.
fn do_schedule<N: Named, D: Disk>(
    alloc: Global,
    stage: &mut Stage<'_, N, D, OpenGate>,
    script: &Script,
) -> Result<(), NoMemory>
    requires play { IsPlay N.board (start_of N.records) script.now (state_of stage.old) }
    requires ready { AreReady (start_of N.records) script.now stage.old.callers }
    ensures play { IsPlay N.board (start_of N.records) script.now (state_of stage.new) }
    ensures ready { OnOk result (AreReady (start_of N.records) script.now stage.new.callers) }
    ensures does { OnOk result (GoesAs (DoesActs script.now script.now.schedule)
        (state_of stage.old) (state_of stage.new)) }
{
    for act in script.schedule() {
        do_act(alloc, stage, script, *act)?;
    }
    Ok(())
}

/// Does all that each client has left.
fn finish<N: Named, D: Disk>(
    alloc: Global,
    stage: &mut Stage<'_, N, D, OpenGate>,
    script: &Script,
) -> Result<(), NoMemory>
    requires play { IsPlay N.board (start_of N.records) script.now (state_of stage.old) }
    requires ready { AreReady (start_of N.records) script.now stage.old.callers }
    ensures play { IsPlay N.board (start_of N.records) script.now (state_of stage.new) }
    ensures does { OnOk result (GoesAs (DoesActs script.now (last_acts script.now))
        (state_of stage.old) (state_of stage.new)) }
{
    let count = script.clients().len();
    for at in 0..count {
        stage.client_turn(alloc, script, ClientNo(at as u8), Move::All)?;
    }
    Ok(())
}

/// Does the acts of the schedule, and then all that each client has left.
fn do_acts<N: Named, D: Disk>(
    alloc: Global,
    stage: &mut Stage<'_, N, D, OpenGate>,
    script: &Script,
) -> Result<(), NoMemory>
    requires play { IsPlay N.board (start_of N.records) script.now (state_of stage.old) }
    requires ready { AreReady (start_of N.records) script.now stage.old.callers }
    ensures play { IsPlay N.board (start_of N.records) script.now (state_of stage.new) }
    ensures does { OnOk result (GoesAs (DoesActs script.now (acts_of script.now))
        (state_of stage.old) (state_of stage.new)) }
{
    do_schedule(alloc, stage, script)?;
    finish(alloc, stage, script)
}

/// Opens, does the acts, and closes.
pub fn play<N: Named, D: Disk>(
    alloc: Global,
    stage: &mut Stage<'_, N, D, OpenGate>,
    script: &Script,
) -> Result<(), RunCause>
    requires play { IsPlay N.board (start_of N.records) script.now (state_of stage.old) }
    requires ready { AreReady (start_of N.records) script.now stage.old.callers }
    ensures play { IsPlay N.board (start_of N.records) script.now (state_of stage.new) }
    ensures settled { OnOk result
        (AreUpAndFree (length N.records) stage.new.calls.inner.stations.items) }
    ensures follows { IsFresh (state_of stage.old) → OnOk result ((past : List Entry) × HasLog
        (state_of stage.new) past × IsPlayed (AreFreeIfSound (start_of N.records)) script.now
        past) }
    ensures damaged { IsFresh (state_of stage.old) → IfErr result (λ cause. IsDamage cause
        → (past : List Entry) × HasLog (state_of stage.new) past
        × IsPlayed (AreFreeIfSound (start_of N.records)) script.now past) }
    ensures caused { IfErr result
        (IsCaused D.faults N.faults N.honest stage.new.calls.inner.stations.items) }
{
    stage.settle(alloc)?;
    if do_acts(alloc, stage, script).is_err() {
        return Err(RunCause::NoMemory);
    }
    stage.settle(alloc)
}
