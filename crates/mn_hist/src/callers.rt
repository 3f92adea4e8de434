//! What the entries so far tell of each client, and where its replies have their place.
ghost use Rattle.std.specs.Option.{option_map};
ghost use Rattle.std.specs.Prelude.{◌≡◌, ◌⊎◌, ◌<◌, ◌∷◌, List, Some, length, replicate, slice_get};
ghost use Rattle.std.specs.Prelude.{IfOk, OnOk, MatchOption, reverse};
ghost use Rattle.mn_runs.specs.Seen.{seen_at};
ghost use Rattle.mn_hist.specs.History.{CallerState, idle, notes_in, with_catalog, with_seen};
ghost use Rattle.mn_hist.specs.History.{TellsNoteShows, state_after, IsLastNote, IsFirstNote};
ghost use Rattle.mn_hist.specs.History.{IsOnlyNote, IsNotedPlace, AreCallerStates};
ghost use Rattle.mn_hist.specs.History.{HasNoPlace, NoneIsOfCatalog, NoneShows};
ghost use Rattle.mn_runs.specs.declared.entry.Entry.{Entry as Step};
ghost use Rattle.mn_hist.specs.Plans.{begun_of};

use crate::plans::Begun;
use crate::shown::{KnownCatalog, Read, is_at_catalog, may_bring, reads_catalog, shows};
use mn_base::{ClientNo, NoMemory, Op, Reply};
use mn_runs::{Entry, What};
use std::alloc::Global;
use std::marker::Model;
use std::rc::Rc;

/// An entry of a client that may bring a read, with its place, and the catalog that the client had
/// read last before it. What it brought is looked at where it is asked for.
#[derive(Drop)]
pub struct Noted<'a> {
    place: usize,
    entry: &'a Entry,
    catalog: Option<Rc<KnownCatalog<'a>>>,
}

impl<'a> Model for Noted<'a> {
    ghost use Rattle.std.specs.Option.{option_map};
    ghost use Rattle.mn_runs.specs.Seen.{seen_at};
    ghost use Rattle.mn_hist.specs.History.{Noting};

    ghost Value = { Noting };

    ghost view = { λ n. record {
      place = n.place;
      seens = seen_at n.entry.now;
      catalog = option_map (λ c. c.value) n.catalog;
    } };
}

/// What the entries so far tell of a client: its operation under way, the entries since that began
/// that may bring reads, and the catalog that it read last.
#[derive(Drop)]
pub struct Caller<'a> {
    pub begun: Option<Begun<'a>>,
    pub notes: Vec<Noted<'a>>,
    catalog: Option<Rc<KnownCatalog<'a>>>,
}

impl<'a> Model for Caller<'a> {
    ghost use Rattle.std.specs.Prelude.{reverse};
    ghost use Rattle.std.specs.Option.{option_map};
    ghost use Rattle.mn_hist.specs.History.{CallerState, notes_in};
    ghost use Rattle.mn_hist.specs.Plans.{begun_of};

    ghost Value = { CallerState };

    ghost view = { λ c. record {
      begun = option_map begun_of c.begun;
      notes = notes_in (reverse c.notes.items);
      catalog = option_map (λ b. b.value) c.catalog;
    } };
}

/// The catalog, for one more owner.
fn shared<'a>(
    catalog: &Option<Rc<KnownCatalog<'a>>>,
) -> Result<Option<Rc<KnownCatalog<'a>>>, NoMemory>
    ensures { IfOk result (λ copy.
        option_map (λ c. c.value) copy ≡ option_map (λ c. c.value) catalog.now) }
{
    match catalog {
        Some(catalog) => Ok(Some(catalog.clone()?)),
        None => Ok(None),
    }
}

fn lent<'b, 'a>(catalog: &'b Option<Rc<KnownCatalog<'a>>>) -> Option<&'b KnownCatalog<'a>>
    ensures { option_map (λ c. c.now) result ≡ option_map (λ c. c.value) catalog.now }
{
    match catalog {
        Some(catalog) => Some(catalog.as_ref()),
        None => None,
    }
}

/// The place of the first read of the catalog. `notes` stand oldest first.
fn first_catalog(notes: &[Noted<'_>]) -> Option<usize>
    ensures { MatchOption result (NoneIsOfCatalog (notes_in (reverse notes.now)))
        (IsFirstNote (notes_in (reverse notes.now))) }
{
    for note in notes {
        if reads_catalog(note.entry) {
            return Some(note.place);
        }
    }
    None
}

/// Whether what the entry brought shows the reply. NoMemory: there was no memory to tell.
fn note_shows(alloc: Global, note: &Noted<'_>, op: &Op, reply: &Reply) -> Result<bool, NoMemory>
    ensures { IfOk result (λ b. TellsNoteShows b note.now op.now reply.now) }
{
    match Read::of(note.entry) {
        Some(read) => shows(alloc, &read, lent(&note.catalog), op, reply),
        None => Ok(false),
    }
}

/// The place of the last read that shows the reply. NoMemory: there was no memory to tell.
fn last_shown(
    alloc: Global,
    notes: &[Noted<'_>],
    op: &Op,
    reply: &Reply,
) -> Result<Option<usize>, NoMemory>
    ensures { IfOk result (λ found.
        MatchOption found (NoneShows (notes_in (reverse notes.now)) op.now reply.now)
        (IsLastNote (notes_in (reverse notes.now)) op.now reply.now)) }
{
    let mut left = notes.len();
    while left > 0 {
        left -= 1;
        let note = &notes[left];
        if note_shows(alloc, note, op, reply)? {
            return Ok(Some(note.place));
        }
    }
    Ok(None)
}

/// The place of the only entry that may bring a read, or else of the last read that shows the
/// reply. NoMemory: there was no memory to tell.
fn only_or_last(
    alloc: Global,
    notes: &[Noted<'_>],
    op: &Op,
    reply: &Reply,
) -> Result<Option<usize>, NoMemory>
    ensures { IfOk result (λ found.
        MatchOption found (NoneShows (notes_in (reverse notes.now)) op.now reply.now)
        (λ place. IsOnlyNote (notes_in (reverse notes.now)) place
        ⊎ IsLastNote (notes_in (reverse notes.now)) op.now reply.now place)) }
{
    if let [only] = notes {
        return Ok(Some(only.place));
    }
    last_shown(alloc, notes, op, reply)
}

/// Where a reply that no plan gives has its place, if it has one: a scan's pairs at its first
/// catalog read, each other at the last read that shows it, which is the only one where there is
/// one. NoMemory: there was no memory to tell.
pub fn read_place(
    alloc: Global,
    notes: &[Noted<'_>],
    op: &Op,
    reply: &Reply,
) -> Result<Option<usize>, NoMemory>
    ensures { IfOk result (λ found.
        MatchOption found (HasNoPlace (notes_in (reverse notes.now)) op.now reply.now)
        (IsNotedPlace (notes_in (reverse notes.now)) op.now reply.now)) }
{
    match (op, reply) {
        (Op::Scan { .. }, Reply::Pairs { .. }) => Ok(first_catalog(notes)),
        _ => only_or_last(alloc, notes, op, reply),
    }
}

impl<'a> Caller<'a> {
    fn idle(alloc: Global) -> Caller<'a>
        ensures { result ≡ idle }
    {
        Caller {
            begun: None,
            notes: Vec::new(alloc),
            catalog: None,
        }
    }

    /// Notes what an entry of its own at this place has read, if it may have read something.
    #[inline(always)]
    fn note(&mut self, alloc: Global, place: usize, entry: &'a Entry) -> Result<(), NoMemory>
        ensures { OnOk result (self.new ≡ with_seen place (seen_at entry.now) self.old) }
    {
        if may_bring(entry) {
            return self.note_read(alloc, place, entry);
        }
        Ok(())
    }

    /// Notes an entry of its own at this place.
    #[inline(always)]
    fn note_read(&mut self, alloc: Global, place: usize, entry: &'a Entry) -> Result<(), NoMemory>
        ensures { OnOk result (self.new ≡ with_seen place (seen_at entry.now) self.old) }
    {
        let catalog = shared(&self.catalog)?;
        self.notes.push(Noted {
            place,
            entry,
            catalog,
        })?;
        if is_at_catalog(entry) {
            return self.note_catalog(alloc, entry);
        }
        Ok(())
    }

    /// Notes the catalog that an entry of its own brought, if it did.
    #[inline(never)]
    fn note_catalog(&mut self, alloc: Global, entry: &'a Entry) -> Result<(), NoMemory>
        ensures { OnOk result (self.new ≡ with_catalog (seen_at entry.now) self.old) }
    {
        if let Some(read) = Read::of(entry) {
            if read.is_catalog() {
                let known = KnownCatalog::new(alloc, read.bytes)?;
                self.catalog = Some(Rc::new(alloc, known)?);
            }
        }
        Ok(())
    }

    /// Takes an entry of its own at this place.
    #[inline(always)]
    fn take(&mut self, alloc: Global, place: usize, entry: &'a Entry) -> Result<(), NoMemory>
        ensures { OnOk result (self.new
            ≡ state_after place entry.now.what (seen_at entry.now) self.old) }
    {
        match &entry.what {
            What::Begin { number, op } => {
                self.begun = Some(Begun {
                    number: *number,
                    op,
                });
                self.notes.clear();
                Ok(())
            }
            What::Answered { .. } => {
                self.begun = None;
                self.notes.clear();
                Ok(())
            }
            _ => self.note(alloc, place, entry),
        }
    }
}

/// The operation of the client that is under way.
pub fn begun_by<'a>(callers: &[Caller<'a>], client: ClientNo) -> Option<Begun<'a>>
    requires { length callers.now ≡ 256 }
    ensures begun { (s : CallerState) → slice_get callers.now client.0 ≡ Some s
        → option_map begun_of result ≡ s.begun }
    ensures few { client.0 < 256 }
{
    let caller = &callers[usize::from(client.0)];
    caller.begun
}

/// Notes what the entry of this client at this place tells of it.
pub fn note_own<'a>(
    alloc: Global,
    callers: &mut [Caller<'a>],
    client: ClientNo,
    place: usize,
    entry: &'a Entry,
) -> Result<(), NoMemory>
    requires { length callers.old ≡ 256 }
    ensures long { length callers.new ≡ 256 }
    ensures tells { OnOk result ((past : List Step) → place ≡ length past
        → entry.now.client ≡ Some client → AreCallerStates callers.old past
        → AreCallerStates callers.new (entry.now ∷ past)) }
{
    callers[usize::from(client.0)].take(alloc, place, entry)
}

/// How many numbers of clients there are.
const CLIENT_NUMBERS: usize = 256;

/// Of no client is anything known.
pub fn idle_callers<'a>(alloc: Global) -> Result<Vec<Caller<'a>>, NoMemory>
    ensures { IfOk result (λ callers. callers.items ≡ replicate 256 idle) }
{
    let mut callers = Vec::with_capacity(alloc, CLIENT_NUMBERS)?;
    for _ in 0..CLIENT_NUMBERS {
        callers.push(Caller::idle(alloc))?;
    }
    Ok(callers)
}
