use crate::{AllocError, plan_slots};
use mn_base::{Addr, Counts, NodeNo};
use std::test::Fail;

#[test]
fn the_last_slot_is_planned(rt: HostRuntime) -> Result<(), Fail> {
    let counts = Counts::from_vec([4096, 4095].to_vec(rt.alloc())?);

    let full = plan_slots(rt.alloc(), &counts, 2).err();
    assert_eq!(rt; full, Some(AllocError::Full { need: 2, free: 1 }));

    let slots = plan_slots(rt.alloc(), &counts, 1)?;
    let last = Addr {
        node: NodeNo(1),
        slot: 4095,
    };
    assert_eq!(rt; slots.as_slice(), [last].as_slice());
    Ok(())
}
