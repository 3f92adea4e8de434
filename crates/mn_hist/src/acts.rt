//! The operations of a history in order of place.
ghost use Rattle.std.specs.Prelude.{◌≡◌, ◌≤◌, ◌<◌, ◌||◌, ◌&&◌, ℕ, List, length, insert, false};
ghost use Rattle.std.specs.Prelude.{IfOk, OnOk, nat_eq};
ghost use Rattle.mn_base.specs.Ids.{client_same};
ghost use Rattle.mn_base.specs.declared.ids.ClientNo.{ClientNo as Who};
ghost use Rattle.mn_hist.specs.Acts.{ChangesNothing, done_by, done_from};
ghost use Rattle.mn_serial.specs.History.{Placed};
ghost use Rattle.mn_hist.specs.History.{AreActsOf, IsIndexIn, stands, IsPutInto, acts_in};
ghost use Rattle.mn_hist.specs.History.{NoneStandsAt};
ghost use Rattle.mn_base.specs.History.{store_after};
ghost use Rattle.mn_base.specs.Store.{applied};
ghost use Rattle.mn_serial.specs.OneHistory.{Ascend};

use crate::table::Table;
use mn_base::{ClientNo, History, NoMemory, Op, Past, SharedOp, TryCopy};
use mn_plain::Store;
use std::alloc::Global;
use std::marker::Model;

/// An operation of the history without its reply.
#[derive(Drop)]
pub struct Act<'a> {
    pub client: ClientNo,
    /// Where it is false, the operation changes no store.
    pub may_change: bool,
    pub number: u32,
    pub op: &'a SharedOp,
}

impl<'a> Model for Act<'a> {
    ghost use Rattle.std.specs.Prelude.{◌≡◌, false};
    ghost use Rattle.mn_hist.specs.Acts.{Act, ChangesNothing};

    ghost Value = { Act };

    ghost view = { λ a. record { client = a.client; number = a.number; op = a.op.now } };

    ghost invariant = { λ a. a.may_change ≡ false → ChangesNothing a.op.now };
}

/// An operation of the history with its place.
#[derive(Drop)]
pub struct PlacedAct<'a> {
    pub place: usize,
    pub act: Act<'a>,
}

/// Whether the operation may change a store: a refused one doesn't.
pub fn may_change(op: &Op) -> bool
    ensures { result ≡ false → ChangesNothing op.now }
{
    match op {
        Op::Tx { steps, .. } => steps.has_change(),
        Op::Snapshot { .. } | Op::Branch { .. } => true,
        Op::Scan { .. } => false,
        Op::Versions => false,
    }
}

/// Notes that the operation stands in the history.
pub fn note_standing(
    standing: &mut Table<bool>,
    client: ClientNo,
    number: u32,
) -> Result<(), NoMemory>
    ensures { OnOk result ((c : Who) (n : ℕ)
        → stands standing.new c n ≡ ((client_same client c && nat_eq number n)
        || stands standing.old c n)) }
{
    standing.keep(client, number, true, false)
}

/// Whether the operation stands in the history.
pub fn is_standing(standing: &Table<bool>, client: ClientNo, number: u32) -> bool
    ensures { result ≡ stands standing.now client number }
{
    standing.of(client, number, false)
}

/// Where an operation of this place is put in: behind the last one whose place is not greater,
/// which is looked for from the end. Those that it passes got their places while the operation was
/// under way, and a client has one at a time: so over a whole log each operation is passed at most
/// once by each client.
fn index_for(acts: &[PlacedAct<'_>], place: usize) -> usize
    ensures within { result ≤ length acts.now }
    ensures index { (placed : List Placed) → Ascend placed → AreActsOf acts.now placed
        → NoneStandsAt place placed → IsIndexIn acts.now place result }
{
    let mut at = acts.len();
    while at > 0 {
        if acts[at - 1].place <= place {
            return at;
        }
        at -= 1;
    }
    0
}

/// Puts in an operation before the one of this index. NoMemory: there was no memory for it.
#[inline(never)]
fn put_before<'a>(
    acts: &mut Vec<PlacedAct<'a>>,
    at: usize,
    act: PlacedAct<'a>,
) -> Result<(), NoMemory>
    requires { at < length acts.old.items }
    ensures { OnOk result (acts.new.items ≡ insert acts.old.items at act.entry) }
{
    acts.insert(at, act)?;
    Ok(())
}

/// Puts in an operation by its place, which mostly is the last one. NoMemory: there was no memory
/// for it.
#[inline(always)]
pub fn put<'a>(acts: &mut Vec<PlacedAct<'a>>, act: PlacedAct<'a>) -> Result<(), NoMemory>
    ensures { OnOk result ((placed : List Placed) → Ascend placed
        → AreActsOf acts.old.items placed → NoneStandsAt act.entry.place placed
        → IsPutInto acts.old.items act.entry acts.new.items) }
{
    let at = index_for(acts, act.place);
    if at < acts.len() {
        return put_before(acts, at, act);
    }
    acts.push(act)?;
    Ok(())
}

/// Does the operation and tells it with its reply. NoMemory: there was no memory for it; the store
/// is as it was, or as the operation leaves it.
fn done(alloc: Global, store: &mut Store, act: &Act<'_>) -> Result<Past, NoMemory>
    ensures past { IfOk result (λ past. past ≡ done_by store.old act.now) }
    ensures store { OnOk result (store.new ≡ (applied store.old act.now.op).store) }
{
    let op = act.op.try_copy(alloc)?;
    let reply = store.apply(alloc, act.op.get())?;
    Ok(Past {
        client: act.client,
        number: act.number,
        op,
        reply,
    })
}

/// Does these operations one after another, which tells each with the store's reply.
pub fn all_done(
    alloc: Global,
    store: &mut Store,
    acts: &[PlacedAct<'_>],
) -> Result<History, NoMemory>
    ensures history { IfOk result (λ history. history ≡ done_from store.old (acts_in acts.now)) }
    ensures store { OnOk result (store.new
        ≡ store_after store.old (done_from store.old (acts_in acts.now))) }
{
    let mut history = Vec::with_capacity(alloc, acts.len())?;
    for placed in acts {
        history.push(done(alloc, store, &placed.act)?)?;
    }
    Ok(History::from_vec(history))
}

/// Does the operation. NoMemory: there was no memory for it.
fn follow(alloc: Global, store: &mut Store, act: &Act<'_>) -> Result<(), NoMemory>
    ensures { OnOk result (store.new ≡ (applied store.old act.now.op).store) }
{
    if act.may_change {
        let _reply = store.apply(alloc, act.op.get())?;
    }
    Ok(())
}

/// Does these operations one after another.
pub fn follow_all(alloc: Global, store: &mut Store, acts: &[PlacedAct<'_>]) -> Result<(), NoMemory>
    ensures { OnOk result (store.new
        ≡ store_after store.old (done_from store.old (acts_in acts.now))) }
{
    for placed in acts {
        follow(alloc, store, &placed.act)?;
    }
    Ok(())
}
