use crate::{Held, LockTable};
use mn_base::{ClientNo, Range, Tid};
use std::test::Fail;

fn tid(serial: u32) -> Tid {
    Tid {
        run: 1,
        client: ClientNo(0),
        serial,
    }
}

fn range(start: u32, length: u32) -> Range {
    Range { start, length }
}

#[test]
fn a_range_is_refused_where_it_meets(rt: HostRuntime) -> Result<(), Fail> {
    let mut table = LockTable::new(rt.alloc())?;
    table.reserve(8)?;
    assert_eq!(rt;
        table.try_lock(tid(2), &[range(0, 8)], &[range(16, 8)]),
        Ok(())
    );
    // What is shared is shared with others.
    assert_eq!(rt; table.try_lock(tid(1), &[range(7, 1)], &[]), Ok(()));
    // A byte before and behind what is held alone is free; the least id that is met is named.
    assert_eq!(rt;
        table.test(tid(3), &[range(15, 1)], &[range(24, 1)]),
        Ok(())
    );
    // An empty range has no byte that is held.
    assert_eq!(rt; table.test(tid(3), &[range(20, 0)], &[range(5, 0)]), Ok(()));
    let last = Held {
        range: range(23, 1),
        holder: tid(2),
    };
    assert_eq!(rt; table.test(tid(3), &[range(23, 1)], &[]), Err(last));
    let shared = Held {
        range: range(0, 16),
        holder: tid(1),
    };
    assert_eq!(rt;
        table.test(tid(3), &[], &[range(8, 8), range(0, 16)]),
        Err(shared)
    );
    table.release(tid(1));
    table.release(tid(2));
    assert_eq!(rt; table.test(tid(3), &[], &[range(0, 24)]), Ok(()));
    Ok(())
}
