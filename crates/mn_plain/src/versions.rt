ghost use Rattle.std.specs.Prelude.{◌≡◌, ◌<◌, [], ◌∷◌, ◌++◌, IfOk, OnOk, OnErr, IsSomeAnd};
ghost use Rattle.std.specs.Prelude.{length, option_map, slice_get};
ghost use Rattle.mn_base.specs.Store.{max_versions};
ghost use Rattle.mn_plain.specs.Run.{pairs_after};
ghost use Rattle.mn_plain.specs.Kept.{all_shown, AreHeld, HasTwin, held_head, held_store};
ghost use Rattle.mn_plain.specs.Kept.{IsAlone, sharers};
ghost use Rattle.mn_plain.specs.Kept.{SetsPairs, Freezes, AddsChild};
ghost use Rattle.mn_plain.specs.Table.{shown};

use crate::table::{Table, copy_of, take_steps};
use crate::version::Held;
use mn_base::{Name, NoMemory, Steps, TryCopy, VersionNo};
use std::alloc::Global;
use std::marker::Model;

/// Versions in order of number, each with its pairs in order of key. A new version has its
/// parent's table, and gets one of its own when it is first changed: so it costs no more than its
/// name. Contracts see the versions.
#[derive(Debug, Drop)]
pub struct Versions {
    held: Vec<Held>,
    tables: Vec<Table>,
}

impl Model for Versions {
    ghost use Rattle.std.specs.Prelude.{List};
    ghost use Rattle.mn_base.specs.Store.{StoreVersion};
    ghost use Rattle.mn_plain.specs.Kept.{all_shown, AreHeld, held_store};

    ghost Value = { List StoreVersion };

    ghost view = { λ v. held_store (all_shown v.tables.items) v.held.items };

    ghost invariant = { λ v. AreHeld (all_shown v.tables.items) v.held.items };
}

/// How many versions have this table.
fn sharers(held: &[Held], table: usize) -> usize
    ensures { result ≡ sharers held.now table }
{
    let mut count = 0usize;
    for version in held {
        if version.table == table {
            count += 1;
        }
    }
    count
}

/// Gives a version a table of its own, with the same pairs.
fn take_apart(
    alloc: Global,
    held: &mut Vec<Held>,
    tables: &mut Vec<Table>,
    at: usize,
) -> Result<(), NoMemory>
    requires there { at < length held.old.items }
    requires held { AreHeld (all_shown tables.old.items) held.old.items }
    ensures there { at < length held.new.items }
    ensures held { AreHeld (all_shown tables.new.items) held.new.items }
    ensures same { held_store (all_shown tables.new.items) held.new.items
        ≡ held_store (all_shown tables.old.items) held.old.items }
    ensures alone { OnOk result (IsAlone held.new.items at) }
{
    let shared = held[at].table;
    if sharers(held, shared) < 2 {
        return Ok(());
    }
    let own = tables.len();
    tables.push(copy_of(alloc, &tables[shared])?)?;
    held[at].table = own;
    Ok(())
}

/// Does the steps in the table of a version that no other has.
fn take_alone(
    alloc: Global,
    held: &[Held],
    tables: &mut Vec<Table>,
    at: usize,
    steps: &Steps,
) -> Result<(), NoMemory>
    requires there { at < length held.now }
    requires held { AreHeld (all_shown tables.old.items) held.now }
    requires alone { IsAlone held.now at }
    ensures held { AreHeld (all_shown tables.new.items) held.now }
    ensures taken { OnOk result (SetsPairs (λ ps. pairs_after ps steps.now)
        (held_store (all_shown tables.old.items) held.now) at
        (held_store (all_shown tables.new.items) held.now)) }
    ensures kept { OnErr result (held_store (all_shown tables.new.items) held.now
        ≡ held_store (all_shown tables.old.items) held.now) }
{
    take_steps(alloc, &mut tables[held[at].table], steps.as_slice())
}

impl Versions {
    /// None.
    pub fn new(alloc: Global) -> Versions
        ensures { result ≡ [] }
    {
        Versions {
            held: Vec::new(alloc),
            tables: Vec::new(alloc),
        }
    }

    /// How many there are.
    pub fn len(&self) -> usize
        ensures { result ≡ length self.now }
    {
        self.held.len()
    }

    /// A version that is there, without its pairs.
    pub fn at(&self, at: usize) -> &Held
        requires { at < length self.now }
        ensures { IsSomeAnd (slice_get self.now at) (λ v. v.head ≡ held_head result.now) }
    {
        &self.held[at]
    }

    /// The pairs of a version that is there.
    pub fn table(&self, at: usize) -> &Table
        requires { at < length self.now }
        ensures { IsSomeAnd (slice_get self.now at) (λ v. shown result.now.entries ≡ v.pairs) }
    {
        &self.tables[self.held[at].table]
    }

    /// The first version with the same table as one that is there, if it stands before it.
    pub fn twin(&self, at: usize) -> Option<usize>
        requires { at < length self.now }
        ensures { HasTwin self.now at result }
    {
        let table = self.held[at].table;
        for before in 0..at {
            if self.held[before].table == table {
                return Some(before);
            }
        }
        None
    }

    /// Adds a version with these pairs. NoMemory: there was no memory for it.
    pub fn push(
        &mut self,
        name: Name,
        parent: Option<VersionNo>,
        frozen: bool,
        table: Table,
    ) -> Result<(), NoMemory>
        ensures added { OnOk result (self.new ≡ self.old ++ record {
          head = record {
            name = name;
            parent = option_map (λ p. p.0) parent;
            frozen = frozen;
          };
          pairs = shown table.entries;
        } ∷ []) }
        ensures kept { OnErr result (self.new ≡ self.old) }
    {
        let number = self.tables.len();
        self.tables.push(table)?;
        self.held.push(Held {
            name,
            parent,
            frozen,
            table: number,
        })?;
        Ok(())
    }

    /// Adds a writable child of a version that is there, with the same pairs. NoMemory: there was
    /// no memory for it.
    pub fn push_child(&mut self, alloc: Global, at: usize, child: &Name) -> Result<(), NoMemory>
        requires there { at < length self.old }
        requires room { length self.old < max_versions }
        ensures added { OnOk result (AddsChild self.old at child.now self.new) }
        ensures kept { OnErr result (self.new ≡ self.old) }
    {
        self.held.push(Held {
            name: child.try_copy(alloc)?,
            parent: Some(VersionNo(at as u8)),
            frozen: false,
            table: self.held[at].table,
        })?;
        Ok(())
    }

    /// Freezes a version that is there.
    pub fn freeze(&mut self, at: usize)
        requires { at < length self.old }
        ensures { Freezes self.old at self.new }
    {
        self.held[at].frozen = true;
    }

    /// Does the steps in a version that is there. NoMemory: there was no memory for them, and its
    /// pairs are as they were.
    pub fn take(&mut self, alloc: Global, at: usize, steps: &Steps) -> Result<(), NoMemory>
        requires { at < length self.old }
        ensures taken { OnOk result (SetsPairs (λ ps. pairs_after ps steps.now)
            self.old at self.new) }
        ensures kept { OnErr result (self.new ≡ self.old) }
    {
        take_apart(alloc, &mut self.held, &mut self.tables, at)?;
        take_alone(alloc, &self.held, &mut self.tables, at, steps)
    }
}

/// Copies of these versions, over the same numbers of tables.
fn held_copies(alloc: Global, held: &[Held]) -> Result<Vec<Held>, NoMemory>
    ensures { IfOk result (λ copies. copies.items ≡ held.now) }
{
    let mut copies = Vec::new(alloc);
    for version in held {
        copies.push(Held {
            name: version.name.try_copy(alloc)?,
            parent: version.parent,
            frozen: version.frozen,
            table: version.table,
        })?;
    }
    Ok(copies)
}

/// Copies of these tables.
fn table_copies(alloc: Global, tables: &[Table]) -> Result<Vec<Table>, NoMemory>
    ensures { IfOk result (λ copies. all_shown copies.items ≡ all_shown tables.now) }
{
    let mut copies = Vec::new(alloc);
    for table in tables {
        copies.push(copy_of(alloc, table)?)?;
    }
    Ok(copies)
}

impl TryCopy for Versions {
    fn try_copy(&self, alloc: Global) -> Result<Self, NoMemory> {
        Ok(Versions {
            held: held_copies(alloc, &self.held)?,
            tables: table_copies(alloc, &self.tables)?,
        })
    }
}
