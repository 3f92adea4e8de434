ghost use Rattle.std.specs.Prelude.{◌≡◌, IfOk};
ghost use Rattle.mn_page.specs.Grammar.{page_bytes};

use crate::{Cache, Spelled};
use mn_base::{Addr, NoMemory, NodeNo, Pairs, VersionNo};
use mn_mini::SharedBytes;
use mn_page::{Body, Low, Page, SharedPage};
use std::alloc::Global;

fn empty_leaf(alloc: Global) -> Result<Spelled, NoMemory>
    ensures { IfOk result (λ spelled. spelled.bytes ≡ page_bytes spelled.page) }
{
    let page = Page {
        seq: 1,
        made: VersionNo(0),
        copied: 0,
        low: Low::new(b"").ok_or(NoMemory)?,
        high: None,
        body: Body::Leaf {
            pairs: Pairs::from_vec(Vec::new(alloc)),
        },
    };
    let mut bytes = vec![in alloc; 0; 1_024]?;
    page.write(&mut bytes);
    let bytes = SharedBytes::new(alloc, bytes)?;
    let page = SharedPage::new(alloc, page)?;
    Ok(Spelled { page, bytes })
}

fn addr(slot: u16) -> Addr {
    Addr {
        node: NodeNo(1),
        slot,
    }
}

#[test]
fn the_least_recently_used_page_goes(rt: HostRuntime) -> Result<(), NoMemory> {
    let mut cache = Cache::new(rt.alloc())?;
    for slot in 0..64 {
        cache.put(addr(slot), empty_leaf(rt.alloc())?)?;
    }
    assert!(rt; cache.get(addr(0)).is_some());
    cache.put(addr(64), empty_leaf(rt.alloc())?)?;

    assert!(rt; cache.get(addr(0)).is_some());
    assert!(rt; cache.get(addr(1)).is_none());
    cache.drop_page(addr(64));
    assert!(rt; cache.get(addr(64)).is_none());
    Ok(())
}
