//! The opening of the disks: their logs, and the store that the records of all of them make.
ghost use Rattle.std.specs.Prelude.{◌≡◌, ◌≤◌, ◌+◌, ◌++◌, [], IfOk, IfErr, length, map};
ghost use Rattle.std.specs.Prelude.{nat_eq, reverse, vec_capacity};
ghost use Rattle.std.specs.List.{flat_map, list_all};
ghost use Rattle.mn_base.specs.Store.{Store, empty_store};
ghost use Rattle.mn_mini.specs.Node.{greatest_run, record_run};
ghost use Rattle.mn_top.specs.declared.due.Due.TheVariants as dues;
ghost use Rattle.mn_top.specs.Logs.{AllRead, AreJudged, HoldNone, MakeStart, WasRead, WasRefused};
ghost use Rattle.mn_top.specs.Logs.{WasntRead, WerentRead};
ghost use Rattle.mn_top.specs.Opening.{IsOpenedAs};
ghost use Rattle.mn_runs.specs.Protocol.{start_of};

use crate::damage::{due_of_forest, due_of_open, due_of_start, due_of_votes};
use crate::due::{DamageRule, Due};
use mn_base::{NoMemory, NodeNo};
use mn_flat::flat_of;
use mn_forest::check;
use mn_io::Disk;
use mn_mini::{Record, Records};
use mn_node::records_of;
use mn_plain::Store;
use mn_redo::{OpenFailed, Redo, one_list};
use std::alloc::Global;

/// The greatest run after which there is a number for a new one.
const LAST_RUN: u32 = 4_294_967_293;

/// The logs of all disks, numbered from 0 in order, with their records, and the room in which the
/// disks were given.
pub struct Logs<D: Disk> {
    pub redos: Vec<Redo<D>>,
    pub records: Vec<Records>,
    pub room: Vec<D>,
}

/// The disks, as they were given in order, and what is due.
pub struct NotOpened<D> {
    pub disks: Vec<D>,
    pub due: Due,
}

/// One log with its records.
struct Opened<D: Disk> {
    redo: Redo<D>,
    records: Records,
}

/// A disk, and what is due.
struct Bad<D> {
    disk: D,
    due: Due,
}

/// Tells why a log wasn't opened.
fn refused<D: Disk>(alloc: Global, failed: OpenFailed<D>, node: NodeNo, nodes: u8) -> Bad<D>
    ensures { (old : D)
        → WasRefused D.state D.faults nodes node.0 old failed.cause failed.disk
        → WasntRead D.state D.faults nodes node.0 old result.disk result.due }
{
    let OpenFailed { disk, cause } = failed;
    let mut disk = disk;
    let due = due_of_open(alloc, &mut disk, node, nodes, cause);
    Bad { disk, due }
}

/// Reads the log of a node.
fn open_one<D: Disk>(alloc: Global, disk: D, node: NodeNo, nodes: u8) -> Result<Opened<D>, Bad<D>>
    ensures read { IfOk result (λ opened.
        WasRead D.state D.faults nodes node.0 disk opened.redo opened.records) }
    ensures bad { IfErr result (λ bad.
        WasntRead D.state D.faults nodes node.0 disk bad.disk bad.due) }
{
    one_list();
    let redo = match Redo::open(alloc, disk, node, nodes) {
        Ok(redo) => redo,
        Err(failed) => return Err(refused(alloc, failed, node, nodes)),
    };
    match records_of(alloc, &redo) {
        Ok(records) => Ok(Opened {
            redo,
            records: Records::from_vec(records),
        }),
        Err(cause) => Err(Bad {
            disk: redo.close(),
            due: due_of_start(node, cause),
        }),
    }
}

/// Gives the disks of these logs back, which stand before those in `rest`; the last of all disks is
/// the first there.
pub fn close_all<D: Disk>(redos: Vec<Redo<D>>, rest: Vec<D>) -> Vec<D>
    requires { length redos.items + length rest.items ≤ vec_capacity rest }
    ensures { result.items ≡ map (λ r. r.disk) redos.items ++ reverse rest.items }
{
    let mut left = redos;
    let mut disks = rest;
    while let Some(redo) = left.pop() {
        disks.push_reserved(redo.close());
    }
    left.destroy_empty();
    disks.reverse();
    disks
}

/// Room for the logs of so many disks.
fn room_for<D: Disk>(alloc: Global, count: usize) -> Result<(Vec<Redo<D>>, Vec<Records>), NoMemory>
    ensures redos { IfOk result (λ room. (room.0.items ≡ []) × (count ≤ vec_capacity room.0)) }
    ensures records { IfOk result (λ room. (room.1.items ≡ []) × (count ≤ vec_capacity room.1)) }
{
    let records = Vec::with_capacity(alloc, count)?;
    let redos = Vec::with_capacity(alloc, count)?;
    Ok((redos, records))
}

/// Reads the logs of all disks in order. It writes nothing. The first disk that can't be read, or
/// whose log is none, is told.
pub fn open_all<D: Disk>(alloc: Global, disks: Vec<D>) -> Result<Logs<D>, NotOpened<D>>
    requires few { length disks.items ≤ 8 }
    ensures read { IfOk result (λ logs.
        AllRead D.state D.faults disks.items logs.redos.items logs.records.items) }
    ensures room { IfOk result (λ logs. (logs.room.items ≡ [])
        × (length disks.items ≤ vec_capacity logs.room)) }
    ensures count { IfErr result (λ failed. length failed.disks.items ≡ length disks.items) }
    ensures failed { IfErr result (λ failed.
        WerentRead D.state D.faults disks.items failed.disks.items failed.due) }
{
    let nodes = disks.len() as u8;
    let Ok((mut redos, mut records)) = room_for(alloc, disks.len()) else {
        return Err(NotOpened {
            disks,
            due: Due::NoMemory,
        });
    };
    let mut rest = disks;
    rest.reverse();
    while let Some(disk) = rest.pop() {
        let node = NodeNo(redos.len() as u8);
        match open_one(alloc, disk, node, nodes) {
            Ok(opened) => {
                let Opened {
                    redo,
                    records: list,
                } = opened;
                redos.push_reserved(redo);
                records.push_reserved(list);
            }
            Err(Bad { disk, due }) => {
                rest.push_reserved(disk);
                return Err(NotOpened {
                    disks: close_all(redos, rest),
                    due,
                });
            }
        }
    }
    Ok(Logs {
        redos,
        records,
        room: rest,
    })
}

/// The store that the records of all nodes make, and the number of a new run on them.
#[derive(Drop)]
pub struct Judged {
    pub store: Store,
    pub run: u32,
}

/// The number of the run that made a record.
fn run_number(written: &Record) -> u32
    ensures { result ≡ record_run written.now }
{
    match written {
        Record::Voted { tid, .. } => tid.run,
        Record::Executed { tid, .. } => tid.run,
        Record::Decided { tid, .. } => tid.run,
        Record::Forced { tid } => tid.run,
    }
}

/// The greatest number of a run in the ids of the records, or 0.
fn last_run(records: &[Record]) -> u32
    ensures { result ≡ greatest_run records.now }
{
    let mut greatest = 0;
    for record in records {
        greatest = run_number(record).max(greatest);
    }
    greatest
}

/// The greatest one of all nodes.
fn last_run_of_all(records: &[Records]) -> u32
    ensures { result ≡ greatest_run (flat_map (λ list. list) records.now) }
{
    let mut greatest = 0;
    for list in records {
        greatest = last_run(list.as_slice()).max(greatest);
    }
    greatest
}

/// Whether no node has a record.
fn have_none(records: &[Records]) -> bool
    ensures { result ≡ list_all (λ list. nat_eq (length list) 0) records.now }
{
    records.iter().all(|list| list.as_slice().is_empty())
}

/// The store of nodes without records.
fn fresh_store(alloc: Global) -> Result<Store, Due>
    ensures store { IfOk result (λ store. store ≡ empty_store) }
    ensures failed { IfErr result (λ due. due ≡ dues.NoMemory) }
{
    match Store::new(alloc) {
        Ok(store) => Ok(store),
        Err(_) => Err(Due::NoMemory),
    }
}

/// The store that the records of all nodes make. That of nodes without records is known, and its
/// memory isn't made.
pub fn store_of(alloc: Global, records: &[Records]) -> Result<Store, Due>
    requires some { 1 ≤ length records.now }
    requires few { length records.now ≤ 8 }
    ensures opened { IfOk result (IsOpenedAs (start_of records.now)) }
    ensures refused { IfErr result (HoldNone records.now) }
{
    if have_none(records) {
        return fresh_store(alloc);
    }
    let spaces = match flat_of(alloc, records) {
        Ok(spaces) => spaces,
        Err(error) => return Err(due_of_votes(error)),
    };
    match check(alloc, &spaces) {
        Ok(store) => Ok(store),
        Err(error) => Err(due_of_forest(error)),
    }
}

/// Judges the records of all nodes: they fit together, their memory holds a store, and there is a
/// number for a new run.
pub fn judge(alloc: Global, records: &[Records]) -> Result<Judged, Due>
    requires some { 1 ≤ length records.now }
    requires few { length records.now ≤ 8 }
    ensures start { IfOk result (λ judged. MakeStart records.now judged.store judged.run) }
    ensures refused { IfErr result (AreJudged records.now) }
{
    let store = store_of(alloc, records)?;
    let greatest = last_run_of_all(records);
    if greatest > LAST_RUN {
        return Err(Due::Damaged {
            node: 0,
            place: 0,
            rule: DamageRule::Runs,
        });
    }
    Ok(Judged {
        store,
        run: greatest + 1,
    })
}
