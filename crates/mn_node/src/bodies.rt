//! The bytes of records that take no memory.
ghost use Rattle.std.specs.Prelude.{◌≡◌};
ghost use Rattle.mn_mini.specs.declared.record.Record.{Record};
ghost use Rattle.mn_mini.specs.RecordGrammar.{record_bytes};

use byteorder::{BigEndian, ByteOrder};
use mn_base::Tid;

/// The bytes of a decision, which take no memory.
pub fn decided_body(tid: Tid, yes: bool) -> [u8; 11]
    ensures { result ≡ record_bytes (Record.Decided tid yes) }
{
    let mut body = [3, 0, 0, 0, 0, tid.client.0, 0, 0, 0, 0, 0];
    BigEndian::write_u32(&mut body[1..], tid.run);
    BigEndian::write_u32(&mut body[6..], tid.serial);
    body[10] = if yes { 1 } else { 0 };
    body
}

/// The bytes of a refusal to vote.
pub fn forced_body(tid: Tid) -> [u8; 10]
    ensures { result ≡ record_bytes (Record.Forced tid) }
{
    let mut body = [4, 0, 0, 0, 0, tid.client.0, 0, 0, 0, 0];
    BigEndian::write_u32(&mut body[1..], tid.run);
    BigEndian::write_u32(&mut body[6..], tid.serial);
    body
}
