ghost use Rattle.std.specs.Prelude.{◌≡◌, ◌≢◌, ◌≤◌, ◌<◌, ◌+◌, ◌^◌, ℕ, List, length, None, Some};
ghost use Rattle.std.specs.Prelude.{true, false, IfOk, IfErr, OnOk, OnErr};
ghost use Rattle.std.specs.List.{AllByRecursion};
ghost use Rattle.mn_io.specs.Faults.{Rose};
ghost use Rattle.mn_mini.specs.declared.record.Record.{Record};
ghost use Rattle.mn_mini.specs.declared.reply.NodeReply.{NodeReply};
ghost use Rattle.mn_redo.specs.Grammar.{Stands};
ghost use Rattle.mn_redo.specs.Redo.{StandsFor};
ghost use Rattle.mn_redo.specs.declared.redo.Phase.TheVariants.{Closing, Started};
ghost use Rattle.mn_mini.specs.RecordGrammar.{IsRecord, record_bytes};
ghost use Rattle.mn_mini.specs.Sound.{Fits, IsDecide, IsSoundRequest};
ghost use Rattle.mn_io.specs.DiskModel.{LeavesOnly, NoneNew, DiskStays, WritesNothing};
ghost use Rattle.mn_node.specs.Node.{IsDone, IsUpToWithOrWithout, added_to, bodies_of, listed};
ghost use Rattle.mn_node.specs.Restart.{FailsRestart, RestartLeaves};
ghost use Rattle.mn_node.specs.State.{Answers, NodeKeepsDisk, IsFirstBadBody, IsStarted};
ghost use Rattle.mn_node.specs.State.{HoldsPartsApart};
ghost use Rattle.mn_node.specs.State.{MayShorten, StandsForRecords, StandsUpToAll};
ghost use Rattle.mn_node.specs.State.{StandsUpToWithOrWithout, left_behind_list, response_to};
ghost use Rattle.mn_node.specs.declared.start.StartCause.TheVariants as causes;

use crate::memory::Memory;
use crate::requests::{Served, answer};
use crate::restart::{RestartError, back};
use crate::start::{StartCause, ready, records_of};
use mn_base::StopAt;
use mn_io::Disk;
use mn_mini::{NodeReply, Record, Request, answers_fit, held_parts_apart};
use mn_redo::{Appender, Redo, one_list};
use std::alloc::Global;
use std::marker::Model;

/// A memory node: its records, on a disk, and what they make of its space, its locks and the ids
/// that may not vote.
///
/// While its disk is honest, each image of it stands for the node's records, of which the first may
/// stand there shortened; while the node is down, for these, or for these and the record of the
/// request inside which it stopped.
#[derive(Drop)]
pub struct Node<D: Disk> {
    redo: Box<Appender<D>>,
    memory: Memory,
    /// The room in which records are spelled, one after another.
    line: Vec<u8>,
    is_down: bool,
    /// While it is down: the record of the request inside which it stopped.
    pending: Option<Record>,
    /// And whether the disk failed then while the log was shortened.
    cutting: bool,
}

impl<D: Disk> Model for Node<D> {
    ghost use Rattle.mn_node.specs.State.{IsNode, NodeState};

    ghost Value = { NodeState D };

    ghost view = { λ n. record {
      disk = n.redo.value.disk;
      node = n.redo.value.node;
      nodes = n.redo.value.nodes;
      records = n.memory.records.items;
      cut = n.memory.cut;
      number = n.redo.value.number;
      tail = n.redo.value.tail;
      down = n.is_down;
      pending = n.pending;
      cutting =
          n.cutting;
    } };

    ghost invariant = { λ n. IsNode D.state n.redo.value n.memory n.is_down n.pending n.cutting };
}

/// A disk whose node wasn't started, and why.
#[derive(Drop)]
pub struct StartFailed<D: Disk> {
    pub disk: D,
    pub cause: StartCause,
}

impl<D: Disk> Node<D> {
    /// Starts the node of a log: its records are those that the log's bodies spell, and it holds
    /// what they hold. It makes room for a decision of each held part, writes the header of a fresh
    /// disk, and nothing else.
    ///
    /// `Damaged` comes exactly where a body is no record, with the place of the gate of the first,
    /// `Fault` only where the disk's count of faults rose, and `NoMemory` where there is no room.
    /// The disk comes back with the cause, and stands for the same bodies.
    pub fn start(alloc: Global, redo: Redo<D>) -> Result<Node<D>, StartFailed<D>>
        requires going { redo.phase ≢ Closing }
        requires nodes { 0 < redo.nodes }

        // As far as its bodies are records, no two parts of different ids that they hold conflict.
        requires apart { HoldsPartsApart redo.bodies }
        ensures started { IfOk result (IsStarted D.state redo) }
        ensures fault { IfErr result
            (λ failed. failed.cause ≡ causes.Fault
            → Rose (D.faults redo.disk) (D.faults failed.disk)) }
        ensures damaged { (at : ℕ) → IfErr result
            (λ failed. failed.cause ≡ causes.Damaged at
            → IsFirstBadBody redo.start redo.bodies at) }
        ensures stands_err { IfErr result
            (λ failed. (D.state failed.disk).honest
            → StandsFor (D.state failed.disk) redo.node redo.nodes redo.bodies) }

        // Where each image stands for the bodies, as `Redo::open` says, a crash at any moment of
        // the call leaves the same bodies.
        ensures moments_ok { (D.state redo.disk).honest
            → StandsFor (D.state redo.disk) redo.node redo.nodes redo.bodies
            → IfOk result (λ node. LeavesOnly (D.state redo.disk) (D.state node.disk)
            (λ c. Stands redo.node redo.nodes c redo.bodies)) }
        ensures moments_err { (D.state redo.disk).honest
            → StandsFor (D.state redo.disk) redo.node redo.nodes redo.bodies
            → IfErr result (λ failed. LeavesOnly (D.state redo.disk) (D.state failed.disk)
            (λ c. Stands redo.node redo.nodes c redo.bodies)) }

        // Of a disk that has its header nothing changes but its room.
        ensures unwritten_ok { redo.phase ≡ Started → (D.state redo.disk).honest
            → IfOk result (λ node. DiskStays (D.state redo.disk) (D.state node.disk)) }
        ensures unwritten_err { redo.phase ≡ Started → (D.state redo.disk).honest
            → IfErr result (λ failed. DiskStays (D.state redo.disk) (D.state failed.disk)) }
        ensures later_ok { IfOk result (λ node. D.faults redo.disk ≤ D.faults node.disk) }
        ensures later_err { IfErr result (λ failed. D.faults redo.disk ≤ D.faults failed.disk) }
        ensures honest_ok { (D.state redo.disk).honest
            → IfOk result (λ node. (D.state node.disk).honest) }
        ensures honest_err { (D.state redo.disk).honest
            → IfErr result (λ failed. (D.state failed.disk).honest) }
        ensures no_better_ok { IfOk result
            (λ node. (D.state node.disk).honest → (D.state redo.disk).honest) }
        ensures no_better_err { IfErr result
            (λ failed. (D.state failed.disk).honest → (D.state redo.disk).honest) }
    {
        let records = match records_of(alloc, &redo) {
            Ok(records) => records,
            Err(cause) => {
                return Err(StartFailed {
                    disk: redo.close(),
                    cause,
                });
            }
        };
        let mut redo = match Box::new(alloc, redo.into_appender()) {
            Ok(redo) => redo,
            Err(failed) => {
                return Err(StartFailed {
                    disk: failed.value.close(),
                    cause: StartCause::NoMemory,
                });
            }
        };
        match ready(alloc, &mut redo, records) {
            Ok(memory) => Ok(Node {
                redo,
                memory,
                line: Vec::new(alloc),
                is_down: false,
                pending: None,
                cutting: false,
            }),
            Err(cause) => Err(StartFailed {
                disk: Box::into_inner(redo).close(),
                cause,
            }),
        }
    }

    /// What the node replies to a request, by its records alone. A record that the answer adds is
    /// stable on the disk before the reply.
    ///
    /// `Stopped`, where the disk failed or a stop was asked for and there was a record to stop at:
    /// the node is down, and the record may stand on the disk or not, as far as the stop says. A
    /// stop before the record leaves the log as it was, and one at half of it leaves it behind its
    /// closed gate, synced, unless the disk failed. `Down` exactly where the node was down, and
    /// `NoMemory` where there was no memory: nothing has changed. A Decide takes no memory. What is
    /// replied fits the request.
    ///
    /// A vote or an execution shortens the log first where its tail has 1,048,576 bytes or more,
    /// and where its number allows it; the stops are at the record behind that.
    pub fn handle(&mut self, alloc: Global, request: &Request, stop: Option<StopAt>) -> NodeReply
        requires sound { IsSoundRequest request.now }
        ensures answers { Answers D.state D.faults self.old request.now stop result self.new }
        ensures fits { Fits request.now result }
        ensures decides { IsDecide request.now → result ≢ NodeReply.NoMemory }

        // The tail stays short where the log may be shortened.
        ensures tail { MayShorten request.now → self.old.number ≢ 2 ^ 63 → (r : Record)
            → (response_to self.old request.now).added ≡ Some r → IsDone result
            → self.new.tail < 2 ^ 20 + 5 + length (record_bytes r) }

        // A crash at any moment of the call leaves the records from before it, with the answer's
        // one record or without, of which the first may be shortened.
        ensures moments { self.old.down ≡ false → (D.state self.old.disk).honest
            → LeavesOnly (D.state self.old.disk) (D.state self.new.disk)
            (IsUpToWithOrWithout self.old.node self.old.nodes self.old.records
            (response_to self.old request.now).added) }
        ensures goes_on { NodeKeepsDisk D.state D.faults self.old self.new }
    {
        held_parts_apart();
        answers_fit();
        if self.is_down {
            return NodeReply::Down;
        }
        match answer(
            alloc,
            &mut self.redo,
            &mut self.memory,
            &mut self.line,
            request,
            stop,
        ) {
            Served::Replied { reply } => reply,
            Served::Stopped { left, cutting } => {
                self.is_down = true;
                self.pending = Some(left);
                self.cutting = cutting;
                NodeReply::Stopped
            }
        }
    }

    /// Stops the node. It takes no memory.
    pub fn halt(&mut self)
        ensures down { self.new.down ≡ true }
        ensures records { self.new.records ≡ self.old.records }
        ensures up { self.old.down ≡ false → self.new.pending ≡ None }
        ensures same { self.old.down ≡ true → self.new ≡ self.old }
        ensures cut { self.new.cut ≡ self.old.cut }
        ensures whole { self.old.down ≡ false → self.new.cutting ≡ false }
        ensures stands { self.old.down ≡ false
            → StandsForRecords (D.state self.new.disk) self.new.node self.new.nodes
            (listed self.new.cut self.new.records) }
        ensures disk { self.new.disk ≡ self.old.disk }
        ensures node { self.new.node ≡ self.old.node }
        ensures nodes { self.new.nodes ≡ self.old.nodes }
    {
        self.is_down = true;
    }

    /// Starts the node again that is down, with its records, and with the record of the request
    /// inside which it stopped where the disk has it: which is told. Where the disk failed while
    /// the log was shortened it has not. It holds again what these
    /// hold, shared ranges too. It writes nothing.
    ///
    /// After an error it is still down, and may be restarted again. `Fault` comes only where the
    /// disk's count of faults rose; `Damaged`, where the disk has other records, never comes where
    /// the disk is honest. It names the first record that differs, as the node has it and as the
    /// disk gave it; or no record and a place: 0 where the disk reads as fresh, or that of the
    /// damage, or that of the gate of a body that is no record.
    pub fn restart(&mut self, alloc: Global) -> Result<bool, RestartError>
        requires down { self.old.down ≡ true }
        ensures up { OnOk result (self.new.down ≡ false) }
        ensures records { IfOk result
            (RestartLeaves self.old.records self.old.pending self.new.records) }
        ensures whole { self.old.cutting ≡ true → IfOk result (λ there. there ≡ false) }
        ensures uncut { self.old.cutting ≡ false → OnOk result (self.new.cut ≡ self.old.cut) }
        ensures stands { OnOk result
            (StandsForRecords (D.state self.new.disk) self.new.node self.new.nodes
            (listed self.new.cut self.new.records)) }
        ensures down { OnErr result (self.new.down ≡ true) }
        ensures before { OnErr result (self.new.records ≡ self.old.records) }
        ensures pending { OnErr result (self.new.pending ≡ self.old.pending) }
        ensures cut { OnErr result (self.new.cut ≡ self.old.cut) }
        ensures cutting { OnErr result (self.new.cutting ≡ self.old.cutting) }

        // A crash at any moment of the call leaves the records, with the one that may have been
        // there or without.
        ensures moments { (D.state self.old.disk).honest
            → LeavesOnly (D.state self.old.disk) (D.state self.new.disk)
            (IsUpToWithOrWithout self.old.node self.old.nodes self.old.records
            self.old.pending) }

        // Nothing was written.
        ensures unwritten { (D.state self.old.disk).honest
            → WritesNothing (D.state self.old.disk) (D.state self.new.disk) }
        ensures images { (D.state self.old.disk).honest
            → NoneNew (D.state self.old.disk) (D.state self.new.disk) }

        // The list that each image stood for before the call it stands for after it, and the node
        // goes on with that list.
        ensures keeps { (records : List Record)
            → StandsForRecords (D.state self.old.disk) self.old.node self.old.nodes records
            → StandsForRecords (D.state self.new.disk) self.old.node self.old.nodes records }
        ensures found { (D.state self.old.disk).honest → (records : List Record)
            → StandsForRecords (D.state self.old.disk) self.old.node self.old.nodes records
            → OnOk result (bodies_of (listed self.new.cut self.new.records)
            ≡ bodies_of records) }
        ensures cause { IfErr result
            (FailsRestart D.state D.faults self.old.disk self.new.disk
            (listed self.old.cut self.old.records)
            (left_behind_list self.old.cutting self.old.pending)) }
        ensures goes_on { NodeKeepsDisk D.state D.faults self.old self.new }
    {
        one_list();
        let cutting = self.cutting;
        match back(
            alloc,
            &mut self.redo,
            &mut self.memory,
            &self.pending,
            cutting,
        ) {
            Ok(there) => {
                self.is_down = false;
                self.pending = None;
                self.cutting = false;
                Ok(there)
            }
            Err(error) => Err(error),
        }
    }

    /// Its records, the oldest first. It tells that these are such as there may be, with the one of
    /// the request inside which the node stopped.
    pub fn records(&self) -> &[Record]
        ensures records { result.now ≡ self.now.records }
        ensures sound { AllByRecursion IsRecord result.now }
        ensures left { AllByRecursion IsRecord (added_to self.now.records self.now.pending) }
    {
        &self.memory.records
    }

    /// Whether it is down. It tells what the disk stands for.
    pub fn is_down(&self) -> bool
        ensures down { result ≡ self.now.down }
        ensures within { self.now.cut ≤ length self.now.records }
        ensures whole { result ≡ false → self.now.cutting ≡ false }
        ensures up { result ≡ false
            → StandsForRecords (D.state self.now.disk) self.now.node self.now.nodes
            (listed self.now.cut self.now.records) }
        ensures stands { (D.state self.now.disk).honest
            → StandsUpToWithOrWithout (D.state self.now.disk) self.now.node self.now.nodes
            self.now.records self.now.pending }
    {
        self.is_down
    }

    /// Its disk, as the last call left it.
    pub fn close(self) -> D
        ensures disk { result ≡ self.disk }
        ensures up { self.down ≡ false
            → StandsUpToAll (D.state result) self.node self.nodes self.records }
        ensures stands { (D.state result).honest
            → StandsUpToWithOrWithout (D.state result) self.node self.nodes self.records
            self.pending }
    {
        Box::into_inner(self.redo).close()
    }
}
