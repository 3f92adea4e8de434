ghost use Rattle.std.specs.Prelude.{◌≡◌, ◌≤◌, ◌<◌, ◌++◌, List, [], ◌∷◌, ℕ, length, reverse, IfOk};
ghost use Rattle.std.specs.Prelude.{OnOk, IfErr, if◌then◌else◌};
ghost use Rattle.std.specs.List.{list_any};
ghost use Rattle.mn_base.specs.Ids.{tid_same};
ghost use Rattle.mn_base.specs.declared.ids.NodeNo.{NodeNo};
ghost use Rattle.mn_mini.specs.declared.record.Record.{Record};
ghost use Rattle.mn_mini.specs.Flat.{space_after_part};
ghost use Rattle.mn_mini.specs.Node.{held_parts, space_of, with_held};
ghost use Rattle.mn_runs.specs.Sound.{AreSound, is_committed, opened_memory};
ghost use Rattle.mn_law.specs.Opened.{HeldAreGreater};
ghost use Rattle.mn_page.specs.Base.{base_of};
ghost use Rattle.mn_page.specs.Space.{space_length};
ghost use Rattle.mn_flat.specs.Known.{TableTells, parts_seen, says_committed};
ghost use Rattle.mn_flat.specs.Refusal.{RefusesRecords, IsWantOfMemory};
ghost use Rattle.mn_flat.specs.Told.{IsTold, IsEnd, RefusesIn};
ghost use Rattle.mn_flat.specs.Votes.{AreRight, lists_of, list_at, numbered};
ghost use Rattle.mn_runs.specs.Protocol.{start_of, base_at};

use crate::VoteError;
use crate::held::{Held, hold};
use crate::known::Table;
use crate::votes::{Past, Told, is_committed, note, test};
use crate::write::write_items;
use mn_base::{NoMemory, NodeNo, Tid};
use mn_mini::{Record, Records};
use mn_space::{NodeSpace, NodeSpaces};
use std::alloc::Global;

/// Notes records behind the others.
fn note_all<'a>(table: &mut Table<'a>, records: &'a [Record]) -> Result<(), NoMemory>
    ensures { (older : List Record) → TableTells table.old older
        → OnOk result (TableTells table.new (reverse records.now ++ older)) }
{
    for record in records {
        table.note(record)?;
    }
    Ok(())
}

/// What a node's records tell.
fn table_of<'a>(alloc: Global, records: &'a [Record]) -> Result<Table<'a>, NoMemory>
    ensures { IfOk result (λ table. TableTells table (reverse records.now)) }
{
    let mut table = Table::new(alloc);
    note_all(&mut table, records)?;
    Ok(table)
}

/// What the records of all nodes tell.
fn told_of<'a>(alloc: Global, records: &'a [Records]) -> Result<Told<'a>, NoMemory>
    ensures { IfOk result (λ told. IsTold told records.now) }
{
    let mut all = Table::new(alloc);
    let mut nodes = Vec::new(alloc);
    for list in records {
        note_all(&mut all, list.as_slice())?;
        nodes.push(table_of(alloc, list.as_slice())?)?;
    }
    Ok(Told { all, nodes })
}

/// Puts in place what a held part writes, if it is held for this id.
fn write_own(h: &Held<'_>, tid: Tid, space: &mut NodeSpace)
    ensures { space.new ≡ (if tid_same h.now.tid tid then space_after_part space.old h.now.part.now
        else space.old) }
{
    if h.tid == tid {
        write_items(space, h.part.as_slice());
    }
}

/// Puts in place what the parts that are held for an id write, the oldest first.
fn write_all_of(held: &[Held<'_>], tid: Tid, space: &mut NodeSpace)
    ensures { space.new ≡ with_held (λ t. tid_same t tid) space.old (parts_seen held.now) }
{
    for h in held {
        write_own(h, tid, space);
    }
}

/// Puts in place what a record writes, where these parts are held.
fn apply(held: &[Held<'_>], record: &Record, space: &mut NodeSpace)
    ensures { (older : List Record) (base : List ℕ) → parts_seen held.now ≡ held_parts older
        → space.old ≡ space_of base older → space.new ≡ space_of base (record.now ∷ older) }
{
    match record {
        Record::Executed { part, .. } => write_items(space, part.as_slice()),
        Record::Decided { tid, yes: true } => write_all_of(held, *tid, space),
        _ => {}
    }
}

/// Puts in place what a held part writes, if its id is committed.
fn write_held(told: &Told<'_>, h: &Held<'_>, space: &mut NodeSpace)
    ensures { space.new ≡ (if list_any
        (says_committed told.now.nodes.items h.now.tid) told.now.nodes.items
        then space_after_part space.old h.now.part.now else space.old) }
{
    if is_committed(&told.nodes, h.tid) {
        write_items(space, h.part.as_slice());
    }
}

/// Puts in place what the held parts of committed ids write.
fn write_committed(told: &Told<'_>, held: &[Held<'_>], space: &mut NodeSpace)
    ensures { space.new ≡ with_held
        (λ tid. list_any (says_committed told.now.nodes.items tid) told.now.nodes.items) space.old
        (parts_seen held.now) }
{
    for h in held {
        write_held(told, h, space);
    }
}

/// Puts in place what the records of a node write, and tells what they hold in the end.
fn finish<'a>(
    alloc: Global,
    list: &'a [Record],
    space: &mut NodeSpace,
) -> Result<Vec<Held<'a>>, NoMemory>
    ensures space { OnOk result (space.new ≡ space_of space.old (reverse list.now)) }
    ensures held { IfOk result (λ held. parts_seen held.items ≡ held_parts (reverse list.now)) }
{
    let mut held = Vec::new(alloc);
    for record in list {
        apply(&held, record, space);
        hold(&mut held, record)?;
    }
    Ok(held)
}

/// Tests the records of a node, whose space is this with what they wrote, and which hold this in
/// the end. Unvoted, Both: the first that is wrong. NoMemory: there was no memory for it.
fn test_all(
    alloc: Global,
    told: &Told<'_>,
    held: &[Held<'_>],
    space: &NodeSpace,
    node: NodeNo,
    list: &[Record],
) -> Result<(), VoteError>
    ensures right { (records : List (List Record)) → IsTold told.now records
        → list.now ≡ list_at records node → IsEnd held.now space.now records node
        → OnOk result (AreRight records node (reverse list.now)) }
    ensures wrong { (records : List (List Record)) → IsTold told.now records
        → list.now ≡ list_at records node → IsEnd held.now space.now records node
        → IfErr result (RefusesIn records node) }
{
    let mut past = Past {
        known: Table::new(alloc),
        held: Vec::new(alloc),
    };
    for (number, record) in list.iter().enumerate() {
        test(told, held, space, &past, node, number, record)?;
        note(&mut past, record)?;
    }
    Ok(())
}

/// Makes the space of a node with these records of its base space: every committed part is in
/// place, whether decided or not. Unvoted, Both: the first record that is wrong. NoMemory: there
/// was no memory for it.
fn replay(
    alloc: Global,
    told: &Told<'_>,
    node: NodeNo,
    list: &[Record],
    space: &mut NodeSpace,
) -> Result<(), VoteError>
    ensures space { (records : List (List Record)) → IsTold told.now records
        → OnOk result (space.new ≡ with_held (is_committed (length records) (lists_of records))
        (space_of space.old (reverse list.now)) (held_parts (reverse list.now))) }
    ensures right { (records : List (List Record)) → IsTold told.now records
        → list.now ≡ list_at records node → space.old ≡ base_of (length records) node.0
        → length space.old ≡ space_length → OnOk result (AreRight records node (reverse list.now)) }
    ensures wrong { (records : List (List Record)) → IsTold told.now records
        → list.now ≡ list_at records node → space.old ≡ base_of (length records) node.0
        → length space.old ≡ space_length → IfErr result (RefusesIn records node) }
{
    let held = finish(alloc, list, space)?;
    test_all(alloc, told, &held, space, node, list)?;
    write_committed(told, &held, space);
    Ok(())
}

/// The space of a node with these records, which stand in its list.
fn space_with(
    alloc: Global,
    told: &Told<'_>,
    nodes: u8,
    node: u8,
    list: &[Record],
) -> Result<NodeSpace, VoteError>
    requires { 0 < nodes }
    ensures space { (records : List (List Record)) → IsTold told.now records
        → IfOk result (λ space. space
        ≡ with_held (is_committed (length records) (lists_of records))
        (space_of (base_of nodes node) (reverse list.now)) (held_parts (reverse list.now))) }
    ensures right { (records : List (List Record)) → IsTold told.now records
        → list.now ≡ list_at records (numbered node) → nodes ≡ length records
        → OnOk result (AreRight records (numbered node) (reverse list.now)) }
    ensures wrong { (records : List (List Record)) → IsTold told.now records
        → list.now ≡ list_at records (numbered node) → nodes ≡ length records
        → IfErr result (RefusesIn records (numbered node)) }
{
    let mut space = NodeSpace::base(alloc, node, nodes)?;
    replay(alloc, told, NodeNo(node), list, &mut space)?;
    Ok(space)
}

/// The flat memory of 1 to 8 nodes with these records, in which every committed minitransaction is
/// applied whether decided or not. It comes only of records that fit together: each is in place, a
/// decided yes has all its votes, no id is decided both ways, and what is held of committed ids
/// writes pages and entries whole, with greater numbers than the spaces have.
///
/// The first record by node and number that is at fault is named. Unvoted: it stands where it may
/// not after the older ones of its node (a vote, an execution and a forced no are the first record
/// of their id there, a decision has its id held, a vote names its own node, nodes alone and the
/// same as each other vote for the id, an execution is the only record of its id, and no part
/// conflicts with a held one), or it decides yes where a participant has no vote. Both: it decides
/// an id that has a decided no, and that is committed or has a decided yes. NoMemory: there was no
/// memory for it.
pub fn flat_of(alloc: Global, records: &[Records]) -> Result<NodeSpaces, VoteError>
    requires some { 1 ≤ length records.now }
    requires few { length records.now ≤ 8 }
    ensures memory { IfOk result (λ memory. memory ≡ opened_memory (start_of records.now)) }
    ensures sound { OnOk result (AreSound (length records.now) (lists_of records.now)) }
    ensures greater { OnOk result
        (HeldAreGreater (length records.now) (base_at (start_of records.now))
        (lists_of records.now)) }
    ensures named { IfErr result (RefusesRecords records.now) }
    ensures unsound { IfErr result
        (λ e. (IsWantOfMemory e → ⊥) → AreSound (length records.now) (lists_of records.now)
        → HeldAreGreater (length records.now) (base_at (start_of records.now))
        (lists_of records.now) → ⊥) }
{
    let told = told_of(alloc, records)?;
    let nodes = records.len() as u8;
    let mut spaces = Vec::new(alloc);
    for (n, list) in records.iter().enumerate() {
        spaces.push(space_with(alloc, &told, nodes, n as u8, list.as_slice())?)?;
    }
    Ok(NodeSpaces::from_vec(spaces))
}
