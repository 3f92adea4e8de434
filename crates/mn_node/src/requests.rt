//! What a node that is up does with each request.
ghost use Rattle.mn_mini.specs.declared.request.Request.{Request};
ghost use Rattle.mn_mini.specs.declared.reply.NodeReply.{NodeReply};
ghost use Rattle.std.specs.Prelude.{◌≡◌, ◌≢◌, reverse, Some, None, true};
ghost use Rattle.std.specs.Prelude.{false, if◌then◌else◌};
ghost use Rattle.mn_mini.specs.Mini.{has_write};
ghost use Rattle.mn_mini.specs.Sound.{IsDecide, IsSoundRequest};
ghost use Rattle.mn_mini.specs.Node.{clash_of, held_parts};
ghost use Rattle.mn_mini.specs.declared.record.Record.{Record};
ghost use Rattle.mn_mini.specs.RecordGrammar.{IsTid, IsPart, AreParticipants};
ghost use Rattle.mn_node.specs.Node.{IsNodeUp, IsUpToWithOrWithout, CrashLeavesOnly, LogKeepsDisk};
ghost use Rattle.mn_node.specs.Node.{KeepsNodeNumbers, KeepsTailShort, Handled, node_answer};
ghost use Rattle.mn_node.specs.State.{MayShorten};
ghost use Rattle.mn_node.specs.Part.{alone_of, shared_of};
ghost use Rattle.mn_node.specs.declared.requests.Served.TheVariants.{Replied};

use crate::bodies::{decided_body, forced_body};
use crate::held::voted;
use crate::list::doubts;
use crate::logging::{Logging, append_or_stop, log_bytes, log_record};
use crate::memory::{Memory, Tested, is_in, test_alone};
use crate::part::{Ranges, ranges_of, shared_copy_of};
use mn_base::{Nodes, StopAt, Tid, TryCopy};
use mn_io::Disk;
use mn_mini::{NodeReply, Part, Reads, Record, Request};
use mn_redo::Appender;
use std::alloc::Global;

/// What became of a request.
#[derive(Debug, Drop)]
pub enum Served {
    /// The answer, or want of memory.
    Replied { reply: NodeReply },
    /// The node stops. The record of the request may stand on the disk or not; with `cutting` the
    /// disk failed before that, while the log was shortened.
    Stopped { left: Record, cutting: bool },
}

/// A Force: the vote of the node, which votes no from now on if it hasn't voted.
#[inline(never)]
pub fn force<D: Disk>(
    redo: &mut Appender<D>,
    memory: &mut Memory,
    tid: Tid,
    stop: Option<StopAt>,
) -> Served
    requires up { IsNodeUp D.state redo.old memory.old }
    requires tid { IsTid tid }
    ensures handled { Handled D.state D.faults redo.old memory.old
        (Request.Force tid) stop result redo.new memory.new }
    ensures continues { LogKeepsDisk D.state D.faults redo.old redo.new }
    ensures moments { CrashLeavesOnly D.state redo.old.disk redo.new.disk
        (IsUpToWithOrWithout redo.old.node redo.old.nodes memory.old.records.items
        (node_answer memory.old (Request.Force tid)).added) }
    ensures same { KeepsNodeNumbers memory.old memory.new }
{
    if voted(&memory.records, tid) {
        return Served::Replied {
            reply: NodeReply::Vote { yes: true },
        };
    }
    if is_in(&memory.forced, tid) {
        return Served::Replied {
            reply: NodeReply::Vote { yes: false },
        };
    }
    match log_bytes(redo, memory, &forced_body(tid), 0, stop) {
        Logging::NoRoom => Served::Replied {
            reply: NodeReply::NoMemory,
        },
        Logging::Unshortened => unreachable!(),
        Logging::Stopped => Served::Stopped {
            left: Record::Forced { tid },
            cutting: false,
        },
        Logging::Logged => {
            memory.add_force(tid);
            Served::Replied {
                reply: NodeReply::Vote { yes: false },
            }
        }
    }
}

/// A Decide: ends the part that is held for the id, if one is. It takes no memory.
#[inline(never)]
pub fn decide<D: Disk>(
    redo: &mut Appender<D>,
    memory: &mut Memory,
    tid: Tid,
    yes: bool,
    stop: Option<StopAt>,
) -> Served
    requires up { IsNodeUp D.state redo.old memory.old }
    requires tid { IsTid tid }
    ensures handled { Handled D.state D.faults redo.old memory.old
        (Request.Decide tid yes) stop result redo.new memory.new }
    ensures memory { result ≢ Replied NodeReply.NoMemory }
    ensures continues { LogKeepsDisk D.state D.faults redo.old redo.new }
    ensures moments { CrashLeavesOnly D.state redo.old.disk redo.new.disk
        (IsUpToWithOrWithout redo.old.node redo.old.nodes memory.old.records.items
        (node_answer memory.old (Request.Decide tid yes)).added) }
    ensures same { KeepsNodeNumbers memory.old memory.new }
{
    if !memory.holds(tid) {
        return Served::Replied {
            reply: NodeReply::Decided,
        };
    }
    if !append_or_stop(redo, &decided_body(tid, yes), stop) {
        return Served::Stopped {
            left: Record::Decided { tid, yes },
            cutting: false,
        };
    }
    memory.add_decision(tid, yes);
    Served::Replied {
        reply: NodeReply::Decided,
    }
}

/// Runs a part that was tested.
fn execute<D: Disk>(
    alloc: Global,
    redo: &mut Appender<D>,
    memory: &mut Memory,
    line: &mut Vec<u8>,
    tid: Tid,
    part: &Part,
    reads: Reads,
    stop: Option<StopAt>,
) -> Served
    requires up { IsNodeUp D.state redo.old memory.old }
    requires tid { IsTid tid }
    requires part { IsPart part.now }
    requires yes { node_answer memory.old (Request.Exec tid part.now)
        ≡ record {
          reply = NodeReply.Done reads;
          added = if has_write part.now then Some (Record.Executed tid part.now) else None;
        } }
    ensures handled { Handled D.state D.faults redo.old memory.old
        (Request.Exec tid part.now) stop result redo.new memory.new }
    ensures continues { LogKeepsDisk D.state D.faults redo.old redo.new }
    ensures moments { CrashLeavesOnly D.state redo.old.disk redo.new.disk
        (IsUpToWithOrWithout redo.old.node redo.old.nodes memory.old.records.items
        (node_answer memory.old (Request.Exec tid part.now)).added) }
    ensures tail { KeepsTailShort redo.old (node_answer memory.old
        (Request.Exec tid part.now)).added result redo.new }
    ensures same { KeepsNodeNumbers memory.old memory.new }
{
    if !part.writes() {
        return Served::Replied {
            reply: NodeReply::Done { reads },
        };
    }
    let Ok(copy) = part.try_copy(alloc) else {
        return Served::Replied {
            reply: NodeReply::NoMemory,
        };
    };
    let executed = Record::Executed { tid, part: copy };
    match log_record(alloc, redo, memory, line, &executed, 0, stop) {
        Logging::NoRoom => Served::Replied {
            reply: NodeReply::NoMemory,
        },
        Logging::Unshortened => Served::Stopped {
            left: executed,
            cutting: true,
        },
        Logging::Stopped => Served::Stopped {
            left: executed,
            cutting: false,
        },
        Logging::Logged => {
            memory.add_execution(executed, tid, part);
            Served::Replied {
                reply: NodeReply::Done { reads },
            }
        }
    }
}

/// An Exec: tests a part and, if it may, runs it. No lock is kept.
#[inline(never)]
pub fn exec<D: Disk>(
    alloc: Global,
    redo: &mut Appender<D>,
    memory: &mut Memory,
    line: &mut Vec<u8>,
    tid: Tid,
    part: &Part,
    stop: Option<StopAt>,
) -> Served
    requires up { IsNodeUp D.state redo.old memory.old }
    requires tid { IsTid tid }
    requires part { IsPart part.now }
    ensures handled { Handled D.state D.faults redo.old memory.old
        (Request.Exec tid part.now) stop result redo.new memory.new }
    ensures continues { LogKeepsDisk D.state D.faults redo.old redo.new }
    ensures moments { CrashLeavesOnly D.state redo.old.disk redo.new.disk
        (IsUpToWithOrWithout redo.old.node redo.old.nodes memory.old.records.items
        (node_answer memory.old (Request.Exec tid part.now)).added) }
    ensures tail { KeepsTailShort redo.old (node_answer memory.old
        (Request.Exec tid part.now)).added result redo.new }
    ensures same { KeepsNodeNumbers memory.old memory.new }
{
    match test_alone(alloc, &memory.space, &memory.locks, tid, part.as_slice()) {
        Err(_) => Served::Replied {
            reply: NodeReply::NoMemory,
        },
        Ok(Tested::Locked { held }) => Served::Replied {
            reply: NodeReply::BadLock {
                start: held.range.start,
                length: held.range.length,
                holder: held.holder,
            },
        },
        Ok(Tested::Differs { differs }) => Served::Replied {
            reply: NodeReply::BadCompare {
                item: differs.item,
                found: differs.found,
            },
        },
        Ok(Tested::Yes { reads }) => execute(alloc, redo, memory, line, tid, part, reads, stop),
    }
}

/// Votes yes for a part that was tested, and holds it.
fn vote_yes<D: Disk>(
    alloc: Global,
    redo: &mut Appender<D>,
    memory: &mut Memory,
    line: &mut Vec<u8>,
    tid: Tid,
    participants: &Nodes,
    part: &Part,
    ranges: &Ranges,
    reads: Reads,
    stop: Option<StopAt>,
) -> Served
    requires up { IsNodeUp D.state redo.old memory.old }
    requires tid { IsTid tid }
    requires participants { AreParticipants participants.now }
    requires part { IsPart part.now }
    requires shared { ranges.now.shared.items ≡ shared_of part.now }
    requires alone { ranges.now.alone.items ≡ alone_of part.now }
    requires free { clash_of (held_parts (reverse memory.old.records.items)) tid part.now ≡ None }
    requires yes { node_answer memory.old (Request.Prepare tid participants.now part.now)
        ≡ record {
          reply = NodeReply.Done reads;
          added = Some (Record.Voted tid participants.now part.now);
        } }
    ensures handled { Handled D.state D.faults redo.old memory.old
        (Request.Prepare tid participants.now part.now) stop result redo.new memory.new }
    ensures continues { LogKeepsDisk D.state D.faults redo.old redo.new }
    ensures moments { CrashLeavesOnly D.state redo.old.disk redo.new.disk
        (IsUpToWithOrWithout redo.old.node redo.old.nodes memory.old.records.items
        (node_answer memory.old (Request.Prepare tid participants.now part.now)).added) }
    ensures tail { KeepsTailShort redo.old (node_answer memory.old
        (Request.Prepare tid participants.now part.now)).added result redo.new }
    ensures same { KeepsNodeNumbers memory.old memory.new }
{
    let Ok(nodes) = participants.try_copy(alloc) else {
        return Served::Replied {
            reply: NodeReply::NoMemory,
        };
    };
    let Ok(copy) = part.try_copy(alloc) else {
        return Served::Replied {
            reply: NodeReply::NoMemory,
        };
    };
    let count = ranges.shared.len() + ranges.alone.len();
    let vote = Record::Voted {
        tid,
        participants: nodes,
        part: copy,
    };
    match log_record(alloc, redo, memory, line, &vote, count, stop) {
        Logging::NoRoom => Served::Replied {
            reply: NodeReply::NoMemory,
        },
        Logging::Unshortened => Served::Stopped {
            left: vote,
            cutting: true,
        },
        Logging::Stopped => Served::Stopped {
            left: vote,
            cutting: false,
        },
        Logging::Logged => {
            memory.add_vote(vote, tid, participants, part, ranges);
            Served::Replied {
                reply: NodeReply::Done { reads },
            }
        }
    }
}

/// A Prepare: tests a part and, if it may, votes yes and holds it.
#[inline(never)]
pub fn prepare<D: Disk>(
    alloc: Global,
    redo: &mut Appender<D>,
    memory: &mut Memory,
    line: &mut Vec<u8>,
    tid: Tid,
    participants: &Nodes,
    part: &Part,
    stop: Option<StopAt>,
) -> Served
    requires up { IsNodeUp D.state redo.old memory.old }
    requires tid { IsTid tid }
    requires participants { AreParticipants participants.now }
    requires part { IsPart part.now }
    ensures handled { Handled D.state D.faults redo.old memory.old
        (Request.Prepare tid participants.now part.now) stop result redo.new memory.new }
    ensures continues { LogKeepsDisk D.state D.faults redo.old redo.new }
    ensures moments { CrashLeavesOnly D.state redo.old.disk redo.new.disk
        (IsUpToWithOrWithout redo.old.node redo.old.nodes memory.old.records.items
        (node_answer memory.old (Request.Prepare tid participants.now part.now)).added) }
    ensures tail { KeepsTailShort redo.old (node_answer memory.old
        (Request.Prepare tid participants.now part.now)).added result redo.new }
    ensures same { KeepsNodeNumbers memory.old memory.new }
{
    if is_in(&memory.forced, tid) {
        return Served::Replied {
            reply: NodeReply::BadForced,
        };
    }
    let Ok(ranges) = ranges_of(alloc, part.as_slice()) else {
        return Served::Replied {
            reply: NodeReply::NoMemory,
        };
    };
    match memory.test(alloc, tid, part.as_slice(), &ranges) {
        Err(_) => Served::Replied {
            reply: NodeReply::NoMemory,
        },
        Ok(Tested::Locked { held }) => Served::Replied {
            reply: NodeReply::BadLock {
                start: held.range.start,
                length: held.range.length,
                holder: held.holder,
            },
        },
        Ok(Tested::Differs { differs }) => Served::Replied {
            reply: NodeReply::BadCompare {
                item: differs.item,
                found: differs.found,
            },
        },
        Ok(Tested::Yes { reads }) => {
            vote_yes(
                alloc,
                redo,
                memory,
                line,
                tid,
                participants,
                part,
                &ranges,
                reads,
                stop,
            )
        }
    }
}

/// A List: the votes that are held.
#[inline(never)]
fn list<D: Disk>(alloc: Global, redo: &Appender<D>, memory: &Memory, stop: Option<StopAt>) -> Served
    requires up { IsNodeUp D.state redo.now memory.now }
    ensures handled { Handled D.state D.faults redo.now memory.now
        Request.List stop result redo.now memory.now }
{
    match doubts(alloc, &memory.records, &memory.held) {
        Ok(doubts) => Served::Replied {
            reply: NodeReply::Listed { doubts },
        },
        Err(_) => Served::Replied {
            reply: NodeReply::NoMemory,
        },
    }
}

/// A Peek: the bytes of a range.
#[inline(never)]
fn peek<D: Disk>(
    alloc: Global,
    redo: &Appender<D>,
    memory: &Memory,
    start: u32,
    length: u32,
    stop: Option<StopAt>,
) -> Served
    requires up { IsNodeUp D.state redo.now memory.now }
    requires sound { IsSoundRequest (Request.Peek start length) }
    ensures handled { Handled D.state D.faults redo.now memory.now
        (Request.Peek start length) stop result redo.now memory.now }
{
    match shared_copy_of(alloc, &memory.space, start, length as usize) {
        Ok(bytes) => Served::Replied {
            reply: NodeReply::Peeked { bytes },
        },
        Err(_) => Served::Replied {
            reply: NodeReply::NoMemory,
        },
    }
}

/// What a node that is up does with a request.
pub fn answer<D: Disk>(
    alloc: Global,
    redo: &mut Appender<D>,
    memory: &mut Memory,
    line: &mut Vec<u8>,
    request: &Request,
    stop: Option<StopAt>,
) -> Served
    requires up { IsNodeUp D.state redo.old memory.old }
    requires sound { IsSoundRequest request.now }
    ensures handled { Handled D.state D.faults redo.old memory.old request.now stop result redo.new
        memory.new }
    ensures decides { IsDecide request.now → result ≢ Replied NodeReply.NoMemory }
    ensures continues { LogKeepsDisk D.state D.faults redo.old redo.new }
    ensures moments { CrashLeavesOnly D.state redo.old.disk redo.new.disk
        (IsUpToWithOrWithout redo.old.node redo.old.nodes memory.old.records.items
        (node_answer memory.old (request.now)).added) }
    ensures tail { MayShorten request.now → KeepsTailShort redo.old
        (node_answer memory.old request.now).added result redo.new }
    ensures same { KeepsNodeNumbers memory.old memory.new }
{
    match request {
        Request::Prepare {
            tid,
            participants,
            part,
        } => prepare(alloc, redo, memory, line, *tid, participants, part, stop),
        Request::Exec { tid, part } => exec(alloc, redo, memory, line, *tid, part, stop),
        Request::Decide { tid, yes } => decide(redo, memory, *tid, *yes, stop),
        Request::Force { tid } => force(redo, memory, *tid, stop),
        Request::List => list(alloc, redo, memory, stop),
        Request::Peek { start, length } => peek(alloc, redo, memory, *start, *length, stop),
    }
}
