//! The one id of which a coordinator and recoveries make calls.
ghost use Rattle.std.specs.Prelude.{◌≡◌, false, IfOk};
ghost use Rattle.mn_mini.specs.RecordGrammar.{IsTid};

use mn_base::{ClientNo, NodeNo, Tid};
use mn_coord::Coordinator;
use mn_mini::{Item, Items, Minitransaction, SharedBytes};
use mn_recov::{RecovStep, Recoverer};
use std::alloc::Global;
use std::test::Fail;

pub fn tid() -> Tid
    ensures { IsTid result }
{
    Tid {
        run: 1,
        client: ClientNo(0),
        serial: 1,
    }
}

/// A write at both nodes.
fn writes(alloc: Global) -> Result<Minitransaction, Fail> {
    let mut items = Vec::new(alloc);
    for node in 0..2 {
        items.push(Item::Write {
            node: NodeNo(node),
            start: 20_480,
            bytes: SharedBytes::copy_of(alloc, &[97])?,
        })?;
    }
    Ok(Minitransaction::new(alloc, 2, Items::from_vec(alloc, items)?)?)
}

/// The coordinator of a write at both nodes.
pub fn coordinator(alloc: Global) -> Result<Coordinator, Fail>
    ensures { IfOk result (λ c. c.asked ≡ false) }
{
    Ok(Coordinator::new(alloc, tid(), writes(alloc)?)?)
}

/// How a recovery ended.
pub fn ended(r: &Recoverer) -> Option<Option<bool>> {
    match r.next() {
        RecovStep::Ended { yes } => Some(yes),
        RecovStep::Send { .. } => None,
    }
}
