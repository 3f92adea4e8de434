//! Copies of requests and replies. What the copy of a reply needs that comes with a new record is
//! taken before the node is asked.
ghost use Rattle.std.specs.Prelude.{◌≡◌, ◌≤◌, ℕ, [], length, vec_capacity, None, IfOk, OnErr};
ghost use Rattle.mn_mini.specs.declared.reply.NodeReply.TheVariants.{Done};
ghost use Rattle.mn_cell.specs.Calls.{HasLengths, IsLarge, lengths_by, lengths_of, read_lengths};
ghost use Rattle.mn_cell.specs.Calls.{what_said};
ghost use Rattle.mn_cell.specs.Promises.{decided_by};

use mn_base::{NoMemory, StopAt, TryCopy};
use mn_mini::{NodeReply, OwnBytes, PartItem, ReadBytes, Reads, Request};
use mn_runs::What;
use std::alloc::Global;
use std::marker::Model;

/// Byte strings as long as those to be copied, and a list for the copies. Contracts see their
/// lengths.
#[derive(Drop)]
struct Rooms {
    bytes: Vec<OwnBytes>,
    /// Empty, with room for as many.
    reads: Box<Vec<ReadBytes>>,
}

impl Model for Rooms {
    ghost use Rattle.std.specs.Prelude.{◌≡◌, ◌≤◌, ℕ, List, [], length, vec_capacity};
    ghost use Rattle.mn_cell.specs.Calls.{lengths_of};

    ghost Value = { List ℕ };

    ghost view = { λ r. lengths_of r.bytes.items };

    ghost invariant = { λ r. (r.reads.value.items ≡ [])
        × (length r.bytes.items ≤ vec_capacity r.reads.value) };
}

/// Room for a copy of what a request reads. Contracts see the lengths of its byte strings. What may
/// add a record seldom reads, so it is small where there are none.
#[derive(Drop)]
pub struct Blanks {
    rooms: Option<Box<Rooms>>,
}

impl Model for Blanks {
    ghost use Rattle.std.specs.Prelude.{ℕ, List, option_map};
    ghost use Rattle.mn_cell.specs.Calls.{lengths_in};

    ghost Value = { List ℕ };

    ghost view = { λ b. lengths_in (option_map (λ r. r.value) b.rooms) };
}

/// So many bytes.
fn zeros(alloc: Global, size: u32) -> Result<OwnBytes, NoMemory>
    ensures { IfOk result (λ bytes. length bytes ≡ size) }
{
    OwnBytes::new(alloc, vec![in alloc; 0u8; size as usize]?)
}

/// As many byte strings as a part has read items, as long as these ask for.
fn zeros_for(alloc: Global, part: &[PartItem]) -> Result<Vec<OwnBytes>, NoMemory>
    ensures { IfOk result (λ zeros. lengths_of zeros.items ≡ read_lengths part.now) }
{
    let mut all = Vec::new(alloc);
    for item in part {
        if let PartItem::Read { length, .. } = item {
            all.push(zeros(alloc, *length)?)?;
        }
    }
    Ok(all)
}

/// The bytes, in place of as many others.
fn filled(mut blank: OwnBytes, bytes: &[u8]) -> ReadBytes
    requires { length blank ≡ length bytes.now }
    ensures { result ≡ bytes.now }
{
    blank.put(bytes);
    ReadBytes::own(blank)
}

/// Puts the byte strings, in place of others of their lengths, where there is room for them. It
/// takes no memory.
fn fill_in(copies: &mut Vec<ReadBytes>, blanks: Vec<OwnBytes>, reads: &[ReadBytes])
    requires empty { copies.old.items ≡ [] }
    requires lengths { lengths_of blanks.items ≡ lengths_of reads.now }
    requires room { length blanks.items ≤ vec_capacity copies.old }
    ensures { copies.new.items ≡ reads.now }
{
    for blank in blanks {
        let bytes = reads[copies.len()].as_slice();
        copies.push_reserved(filled(blank, bytes));
    }
}

impl Rooms {
    /// The byte strings, in place of others of their lengths. It takes no memory.
    fn fill(self, reads: &[ReadBytes]) -> Reads
        requires { self ≡ lengths_of reads.now }
        ensures { result ≡ reads.now }
    {
        let Rooms {
            bytes,
            reads: mut copies,
        } = self;
        fill_in(&mut copies, bytes, reads);
        Reads::from_box(copies)
    }
}

impl Blanks {
    /// Room for what a part reads.
    fn of(alloc: Global, part: &[PartItem]) -> Result<Self, NoMemory>
        ensures { IfOk result (λ blanks. blanks ≡ read_lengths part.now) }
    {
        let bytes = zeros_for(alloc, part)?;
        if bytes.is_empty() {
            return Ok(Blanks { rooms: None });
        }
        let reads = Box::new(alloc, Vec::with_capacity(alloc, bytes.len())?)?;
        Ok(Blanks {
            rooms: Some(Box::new(alloc, Rooms { bytes, reads })?),
        })
    }

    /// The byte strings, in place of others of their lengths. It takes no memory.
    fn fill(self, reads: &[ReadBytes]) -> Reads
        requires { self ≡ lengths_of reads.now }
        ensures { result ≡ reads.now }
    {
        let Blanks { rooms } = self;
        match rooms {
            None => Reads::none(),
            Some(rooms) => Box::into_inner(rooms).fill(reads),
        }
    }
}

/// Room for a copy of what the request may read. None: it adds no record, whatever is answered, so
/// a copy shares what was read, for which there may be no memory. A Decide never meets NoMemory.
pub fn blanks_for(alloc: Global, request: &Request) -> Result<Option<Blanks>, NoMemory>
    ensures blanks { IfOk result (λ blanks. blanks ≡ lengths_by request.now) }
    ensures failed { OnErr result (decided_by request.now ≡ None) }
{
    match request {
        Request::Prepare { part, .. } => Ok(Some(Blanks::of(alloc, part.as_slice())?)),
        Request::Exec { part, .. } => {
            if part.writes() {
                Ok(Some(Blanks::of(alloc, part.as_slice())?))
            } else {
                Ok(None)
            }
        }
        _ => Ok(None),
    }
}

/// The same byte strings, in the room for them. NoMemory comes only where there is none.
fn copy_reads(alloc: Global, reads: &Reads, blanks: Option<Blanks>) -> Result<Reads, NoMemory>
    requires { HasLengths blanks (Done reads.now) }
    ensures same { IfOk result (λ copy. copy ≡ reads.now) }
    ensures large { OnErr result (IsLarge blanks (Done reads.now)) }
{
    match blanks {
        Some(blanks) => Ok(blanks.fill(reads.as_slice())),
        None => reads.try_copy(alloc),
    }
}

/// An equal reply, whose reads, if it has some, stand in the room for them. NoMemory comes only for
/// a reply that comes with no new record.
pub fn copy_of(
    alloc: Global,
    reply: &NodeReply,
    blanks: Option<Blanks>,
) -> Result<NodeReply, NoMemory>
    requires { HasLengths blanks reply.now }
    ensures same { IfOk result (λ copy. copy ≡ reply.now) }
    ensures large { OnErr result (IsLarge blanks reply.now) }
{
    match reply {
        NodeReply::Done { reads } => Ok(NodeReply::Done {
            reads: copy_reads(alloc, reads, blanks)?,
        }),
        NodeReply::BadLock {
            start,
            length,
            holder,
        } => Ok(NodeReply::BadLock {
            start: *start,
            length: *length,
            holder: *holder,
        }),
        NodeReply::BadForced => Ok(NodeReply::BadForced),
        NodeReply::Vote { yes } => Ok(NodeReply::Vote { yes: *yes }),
        NodeReply::Decided => Ok(NodeReply::Decided),
        NodeReply::Down => Ok(NodeReply::Down),
        NodeReply::Stopped => Ok(NodeReply::Stopped),
        NodeReply::NoMemory => Ok(NodeReply::NoMemory),
        NodeReply::BadCompare { .. } => reply.try_copy(alloc),
        NodeReply::Listed { .. } => reply.try_copy(alloc),
        NodeReply::Peeked { .. } => reply.try_copy(alloc),
    }
}

/// The step of a call.
pub fn what_of(request: Request, stop: Option<StopAt>, reply: NodeReply) -> What
    ensures { result ≡ what_said request stop reply }
{
    if matches!(reply, NodeReply::Stopped) {
        return What::Stopped {
            request: Some(request),
            asked: stop,
        };
    }
    What::Called { request, reply }
}
