ghost use Rattle.std.specs.Prelude.{◌≡◌, ◌≤◌, IfOk, length, replicate};
ghost use Rattle.byteorder.specs.Endian.{big_bytes};
ghost use Rattle.mn_page.specs.Grammar.{count_in, entry_bytes, page_bytes};
ghost use Rattle.mn_page.specs.Space.{count_size, entry_start, slot_start};

use crate::image::SLOTS_START;
use byteorder::{BigEndian, ByteOrder};
use mn_base::{NoMemory, NodeNo, TryCopy, VersionNo};
use mn_mini::SharedBytes;
use mn_page::{CatEntry, Page, PlacedPage};
use std::alloc::Global;
use std::marker::Model;

/// The node from which the catalog is read; each node has it.
pub const CATALOG_NODE: NodeNo = NodeNo(0);

/// Where the catalog begins, and how many bytes an entry has.
const CATALOG_START: u32 = 64;

const ENTRY_SIZE: u32 = 64;

/// How many bytes a slot has.
const SLOT_SIZE: u32 = 1_024;

/// Where the entry of a version begins.
pub fn entry_start(version: VersionNo) -> u32
    ensures { result ≡ entry_start version.0 }
{
    CATALOG_START + ENTRY_SIZE * u32::from(version.0)
}

/// Where a slot begins.
pub fn slot_start(slot: u16) -> u32
    ensures { result ≡ slot_start slot }
{
    SLOTS_START + SLOT_SIZE * u32::from(slot)
}

/// The bytes of a page.
pub fn page_bytes(alloc: Global, page: &Page) -> Result<SharedBytes, NoMemory>
    requires few { count_in page.now.body ≤ 8 }
    requires low { length page.now.low ≤ 32 }
    ensures { IfOk result (λ bytes. bytes ≡ page_bytes page.now) }
{
    let mut bytes = vec![in alloc; 0u8; 1_024]?;
    let filled = page.write(&mut bytes);
    Ok(SharedBytes::filled(alloc, bytes, filled)?)
}

/// The bytes of a page as a plan writes it.
pub fn placed_bytes(alloc: Global, page: &PlacedPage) -> Result<SharedBytes, NoMemory>
    requires few { count_in page.now.body ≤ 8 }
    requires low { length page.now.low ≤ 32 }
    ensures { IfOk result (λ bytes. bytes ≡ page_bytes page.now) }
{
    let mut bytes = vec![in alloc; 0u8; 1_024]?;
    let filled = page.write(&mut bytes);
    Ok(SharedBytes::filled(alloc, bytes, filled)?)
}

/// The bytes of an entry.
pub fn entry_bytes(alloc: Global, entry: &CatEntry) -> Result<SharedBytes, NoMemory>
    ensures { IfOk result (λ bytes. bytes ≡ entry_bytes entry.now) }
{
    let mut bytes = [0u8; 64];
    entry.write(&mut bytes);
    SharedBytes::copy_of(alloc, &bytes)
}

/// An entry of the catalog with its bytes, which each plan that compares them shares. Contracts see
/// it as the entry.
#[derive(Drop)]
pub struct SpelledEntry<'a> {
    entry: &'a CatEntry,
    bytes: &'a SharedBytes,
}

impl<'a> Model for SpelledEntry<'a> {
    ghost use Rattle.std.specs.Prelude.{◌≡◌};
    ghost use Rattle.mn_page.specs.declared.entry.CatEntry.{CatEntry};
    ghost use Rattle.mn_page.specs.Grammar.{entry_bytes};

    ghost Value = { CatEntry };

    ghost view = { λ e. e.entry.now };

    ghost invariant = { λ e. e.bytes.now ≡ entry_bytes e.entry.now };
}

impl<'a> SpelledEntry<'a> {
    /// The entry with these bytes.
    pub fn new(entry: &'a CatEntry, bytes: &'a SharedBytes) -> Self
        requires { bytes.now ≡ entry_bytes entry.now }
        ensures { result ≡ entry.now }
    {
        SpelledEntry { entry, bytes }
    }

    /// Its bytes, of which there is one owner more.
    pub fn share(&self, alloc: Global) -> Result<SharedBytes, NoMemory>
        ensures { IfOk result (λ bytes. bytes ≡ entry_bytes self.now) }
    {
        self.bytes.try_copy(alloc)
    }
}

/// The bytes of an unused entry.
pub fn no_entry_bytes(alloc: Global) -> Result<SharedBytes, NoMemory>
    ensures { IfOk result (λ bytes. bytes ≡ replicate 64 0) }
{
    SharedBytes::copy_of(alloc, &[0u8; 64])
}

/// The bytes of a count.
pub fn count_bytes(alloc: Global, count: u16) -> Result<SharedBytes, NoMemory>
    ensures { IfOk result (λ bytes. bytes ≡ big_bytes count_size count) }
{
    let mut bytes = [0u8; 8];
    BigEndian::write_u64(&mut bytes, u64::from(count));
    SharedBytes::copy_of(alloc, &bytes)
}
