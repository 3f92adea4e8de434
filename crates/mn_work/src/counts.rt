ghost use Rattle.std.specs.Prelude.{◌≡◌, ◌<◌, ◌≤◌, IfOk, MatchOption, OnErr, length};
ghost use Rattle.byteorder.specs.Endian.{big_bytes};
ghost use Rattle.mn_page.specs.Space.{count_size, max_slots};
ghost use Rattle.mn_work.specs.Counts.{IsCountOf, SpellsNoCount, TakesCount};

use crate::next::{Taken, fault_at};
use crate::place::COUNT_SIZE;
use byteorder::{BigEndian, ByteOrder};
use mn_alloc::SLOTS;
use mn_base::{Addr, Bytes, NoMemory, NodeNo};
use std::alloc::Global;

/// The count that these bytes spell, if it is one.
fn count_in(bytes: &[u8]) -> Option<u16>
    ensures { MatchOption result (SpellsNoCount bytes.now) (IsCountOf bytes.now) }
{
    if bytes.len() != COUNT_SIZE as usize {
        return None;
    }
    let count = BigEndian::read_u64(bytes);
    if count > u64::from(SLOTS) {
        return None;
    }
    Some(count as u16)
}

/// The bytes of a count.
pub fn count_bytes(alloc: Global, count: u16) -> Result<Bytes, NoMemory>
    ensures { IfOk result (λ bytes. bytes ≡ big_bytes count_size count) }
{
    let mut bytes = [0u8; 8];
    BigEndian::write_u64(&mut bytes, u64::from(count));
    Ok(Bytes::from_vec(bytes.to_vec(alloc)?))
}

/// Puts the count of the next node, which was read, behind those before it.
pub fn take_count(counts: &mut Vec<u16>, bytes: &[u8]) -> Result<Taken, NoMemory>
    requires { length counts.old.items < 8 }
    ensures taken { IfOk result (TakesCount counts.old.items bytes.now counts.new.items) }
    ensures unchanged { OnErr result (counts.new.items ≡ counts.old.items) }
{
    match count_in(bytes) {
        Some(count) => {
            counts.push(count)?;
            Ok(Taken::GoesOn)
        }
        None => Ok(Taken::Fails {
            cause: fault_at(
                Addr {
                    node: NodeNo(counts.len() as u8),
                    slot: 0,
                },
                0,
            ),
        }),
    }
}
