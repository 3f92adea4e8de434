//! A check of the disks: they are opened and closed, and nothing is written.
ghost use Rattle.std.specs.Prelude.{◌≡◌, ◌≤◌, [], IfOk, length};
ghost use Rattle.mn_hist.specs.Audit.{versions_told};
ghost use Rattle.mn_report.specs.Report.{check_text};
ghost use Rattle.mn_top.specs.Check.{ChecksTo};
ghost use Rattle.mn_top.specs.Logs.{AreTold};
ghost use Rattle.mn_top.specs.Opening.{AreUnwritten};

use crate::due::Due;
use crate::open::{Logs, NotOpened, close_all, open_all, store_of};
use crate::play::{Ended, without_log};
use mn_base::{Bytes, NoMemory};
use mn_hist::versions_of;
use mn_io::Disk;
use mn_mini::Records;
use mn_plain::Store;
use mn_report::write_check;
use std::alloc::Global;

/// What is written of disks that hold this store.
fn text_of_store(alloc: Global, store: &Store) -> Result<Bytes, NoMemory>
    ensures { IfOk result (λ text. text ≡ check_text (versions_told store.now)) }
{
    let versions = versions_of(alloc, store)?;
    write_check(alloc, &versions)
}

/// What is due of the records of all nodes, whether or not a number is left for a run.
fn due_of_records(alloc: Global, records: &[Records]) -> Due
    requires some { 1 ≤ length records.now }
    requires few { length records.now ≤ 8 }
    ensures { AreTold records.now result }
{
    let store = match store_of(alloc, records) {
        Ok(store) => store,
        Err(due) => return due,
    };
    match text_of_store(alloc, &store) {
        Ok(text) => Due::Report { text },
        Err(_) => Due::NoMemory,
    }
}

/// Checks the disks, and tells what is due. It writes nothing.
pub fn check_disks<D: Disk>(alloc: Global, disks: Vec<D>) -> Ended<D>
    requires some { 1 ≤ length disks.items }
    requires few { length disks.items ≤ 8 }
    ensures count { length result.disks.items ≡ length disks.items }
    ensures unwritten { AreUnwritten D.state disks.items result.disks.items }
    ensures log { result.log ≡ [] }
    ensures due { ChecksTo D.state D.faults disks.items result.disks.items result.due }
{
    match open_all(alloc, disks) {
        Ok(logs) => {
            let Logs {
                redos,
                records,
                room,
            } = logs;
            let due = due_of_records(alloc, &records);
            without_log(alloc, close_all(redos, room), due)
        }
        Err(NotOpened { disks, due }) => without_log(alloc, disks, due),
    }
}
