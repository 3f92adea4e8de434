ghost use Rattle.std.specs.Prelude.{◌≡◌};
ghost use Rattle.mn_page.specs.Space as space;
ghost use Rattle.mn_law.specs.Places.{catalog_place, count_place, page_place};

use mn_base::{Addr, NodeNo};

/// The bytes of the count of slots that a node has given out.
pub const COUNT_START: u32 = 16;

pub const COUNT_SIZE: u32 = 8;

/// The bytes of the catalog, and of an entry of it.
const CATALOG_START: u32 = 64;

const CATALOG_SIZE: u32 = 4_096;

const ENTRY_SIZE: u32 = 64;

/// Where the slots of a node begin, and the bytes of one.
const SLOTS_START: u32 = 20_480;

pub const SLOT_SIZE: u32 = 1_024;

/// The node from which the catalog is read; each node has it.
pub const CATALOG_NODE: NodeNo = NodeNo(0);

/// A range of bytes of a node's space.
#[derive(Clone, Copy, Debug)]
pub struct Place {
    pub node: NodeNo,
    pub start: u32,
    pub length: u32,
}

/// Where a slot begins.
pub fn slot_start(slot: u16) -> u32
    ensures { result ≡ space.slot_start slot }
{
    SLOTS_START + SLOT_SIZE * u32::from(slot)
}

/// Where the entry of a version begins.
pub fn entry_start(version: u8) -> u32
    ensures { result ≡ space.entry_start version }
{
    CATALOG_START + ENTRY_SIZE * u32::from(version)
}

impl Place {
    ghost use Rattle.mn_work.specs.Places.{place_of};

    pub fn of_catalog() -> Place
        ensures { place_of result ≡ catalog_place }
    {
        Place {
            node: CATALOG_NODE,
            start: CATALOG_START,
            length: CATALOG_SIZE,
        }
    }

    pub fn of_page(addr: Addr) -> Place
        ensures { place_of result ≡ page_place addr }
    {
        Place {
            node: addr.node,
            start: slot_start(addr.slot),
            length: SLOT_SIZE,
        }
    }

    pub fn of_count(node: NodeNo) -> Place
        ensures { place_of result ≡ count_place node }
    {
        Place {
            node,
            start: COUNT_START,
            length: COUNT_SIZE,
        }
    }
}
