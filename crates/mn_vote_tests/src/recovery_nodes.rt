//! Two recoveries race over two real nodes, which hold votes of a client that is gone.
ghost use Rattle.std.specs.Prelude.{◌≡◌, ◌≢◌, false, IfOk};
ghost use Rattle.mn_mini.specs.Sound.{IsSoundRequest};
ghost use Rattle.mn_redo.specs.declared.redo.Phase.TheVariants.{Closing};
ghost use Rattle.mn_node.specs.State.{HoldsPartsApart};

use crate::one_id::{coordinator, ended, tid};
use mn_base::{NodeNo, Tid};
use mn_coord::{CoordStep, Coordinator};
use mn_io::{Bytes, Calls};
use mn_memdisk::MemoryDisk;
use mn_mini::{NodeReply, Record, Request};
use mn_node::Node;
use mn_recov::{RecovStep, Recoverer};
use mn_redo::Redo;
use std::alloc::Global;
use std::test::Fail;

/// The log of a node of this number, of two, on a disk without a byte.
fn empty_log(alloc: Global, number: u8) -> Result<Redo<MemoryDisk>, Fail>
    ensures going { IfOk result (λ redo. redo.phase ≢ Closing) }
    ensures bodies { IfOk result (λ redo. HoldsPartsApart redo.bodies) }
    ensures nodes { IfOk result (λ redo. redo.nodes ≡ 2) }
{
    let disk = MemoryDisk::new(
        Bytes::from_vec(Vec::new(alloc)),
        Calls::from_vec(Vec::new(alloc)),
    );
    match Redo::open(alloc, disk, NodeNo(number), 2) {
        Ok(redo) => Ok(redo),
        Err(_failed) => Err(Fail::new("no log")),
    }
}

fn start(alloc: Global, number: u8) -> Result<Node<MemoryDisk>, Fail> {
    let redo = empty_log(alloc, number)?;
    match Node::start(alloc, redo) {
        Ok(node) => Ok(node),
        Err(_failed) => Err(Fail::new("no node")),
    }
}

/// Both nodes.
#[derive(Drop)]
struct Both {
    zero: Node<MemoryDisk>,
    one: Node<MemoryDisk>,
}

impl Both {
    fn new(alloc: Global) -> Result<Self, Fail> {
        Ok(Both {
            zero: start(alloc, 0)?,
            one: start(alloc, 1)?,
        })
    }

    /// A node's reply.
    fn call(&mut self, alloc: Global, at: NodeNo, request: &Request) -> NodeReply
        requires { IsSoundRequest request.now }
    {
        match at.0 {
            0 => self.zero.handle(alloc, request, None),
            1 => self.one.handle(alloc, request, None),
            _ => NodeReply::Down,
        }
    }
}

/// The coordinator makes its next call, if it has one.
fn coordinate(alloc: Global, c: &mut Coordinator, nodes: &mut Both)
    requires { c.old.asked ≡ false }
    ensures { c.new.asked ≡ false }
{
    if let CoordStep::Send { node, request } = c.next() {
        c.feed(nodes.call(alloc, node, &request));
    }
}

/// A recovery makes its next call, if it has one.
fn recover(alloc: Global, r: &mut Recoverer, nodes: &mut Both) {
    if let RecovStep::Send { node, request } = r.next() {
        r.feed(nodes.call(alloc, node, &request));
    }
}

/// The client asks for so many votes, and is gone.
fn vote(alloc: Global, nodes: &mut Both, votes: u32) -> Result<(), Fail> {
    let mut c = coordinator(alloc)?;
    for _ in 0..votes {
        coordinate(alloc, &mut c, nodes);
    }
    Ok(())
}

/// The letter of a record, and its id.
fn said(record: &Record) -> (u8, Tid) {
    match record {
        Record::Voted { tid, .. } => (b'V', *tid),
        Record::Executed { tid, .. } => (b'E', *tid),
        Record::Decided { tid, yes: true } => (b'Y', *tid),
        Record::Decided { tid, yes: false } => (b'N', *tid),
        Record::Forced { tid } => (b'F', *tid),
    }
}

/// The records have these letters, and are all of the one id.
fn has(records: &[Record], letters: &[u8]) -> bool {
    for (at, record) in records.iter().enumerate() {
        let (letter, id) = said(record);
        if id != tid() || letters.get(at).copied() != Some(letter) {
            return false;
        }
    }
    records.len() == letters.len()
}

/// Two recoveries, and the nodes.
#[derive(Drop)]
struct Race {
    nodes: Both,
    one: Recoverer,
    two: Recoverer,
}

impl Race {
    fn new(alloc: Global) -> Result<Self, Fail> {
        Ok(Race {
            nodes: Both::new(alloc)?,
            one: Recoverer::new(alloc, tid(), 2)?,
            two: Recoverer::new(alloc, tid(), 2)?,
        })
    }

    /// The turn of one recovery, or of the other.
    fn turn(&mut self, alloc: Global, number: u32) {
        if number == 0 {
            recover(alloc, &mut self.one, &mut self.nodes);
        } else {
            recover(alloc, &mut self.two, &mut self.nodes);
        }
    }

    /// The first five calls are in the order of the binary digits, and then each has its turn.
    fn run(&mut self, alloc: Global, order: u32) {
        let mut rest = order;
        for n in 0..17u32 {
            self.turn(alloc, if n < 5 { rest % 2 } else { n % 2 });
            rest /= 2;
        }
    }

    /// One of them ends with the verdict, and the other too, unless no node listed the id any more.
    fn has_ended(&self, verdict: bool) -> bool {
        let decided = Some(Some(verdict));
        match (ended(&self.one), ended(&self.two)) {
            (one, Some(None)) => one == decided,
            (Some(None), two) => two == decided,
            (one, two) => one == decided && two == decided,
        }
    }
}

/// How many votes there are, the verdict, and the records that both nodes have in the end: V, a
/// vote, F, it was forced, Y and N, a decision with yes and with no.
type Row = (u32, bool, &'static [u8], &'static [u8]);

const ROWS: [Row; 2] = [(1, false, b"VN", b"F"), (2, true, b"VY", b"VY")];

fn ends_so(alloc: Global, row: &Row, order: u32) -> Result<bool, Fail> {
    let (votes, verdict, zero, one) = row;
    let mut race = Race::new(alloc)?;
    vote(alloc, &mut race.nodes, *votes)?;
    race.run(alloc, order);
    let nodes = &race.nodes;
    Ok(race.has_ended(*verdict) && has(nodes.zero.records(), zero) && has(nodes.one.records(), one))
}

#[test]
fn a_race_over_real_nodes_leaves_their_records(rt: HostRuntime) -> Result<(), Fail> {
    for row in &ROWS {
        for order in 0..32 {
            assert!(rt; ends_so(rt.alloc(), row, order)?, "the race by {order}");
        }
    }
    Ok(())
}
