use crate::copy_for;
use mn_base::{NoMemory, Pairs, VersionNo};
use mn_page::{Body, Low, Page};
use std::test::Fail;

#[test]
fn a_leaf_is_copied_for_two_versions(rt: HostRuntime) -> Result<(), Fail> {
    let page = Page {
        seq: 1,
        made: VersionNo(0),
        copied: 0,
        low: Low::new(b"").ok_or(NoMemory)?,
        high: None,
        body: Body::Leaf {
            pairs: Pairs::from_vec(Vec::new(rt.alloc())),
        },
    };
    let (page, first) = copy_for(rt.alloc(), &page, VersionNo(1))?;
    let (page, second) = copy_for(rt.alloc(), &page, VersionNo(2))?;
    assert_eq!(rt; (page.seq, page.made, page.copied), (3, VersionNo(0), 6));
    assert_eq!(rt; (first.seq, first.made, first.copied), (1, VersionNo(1), 0));
    assert_eq!(rt;
        (second.seq, second.made, second.copied),
        (1, VersionNo(2), 0)
    );

    let worn = Page {
        seq: u64::MAX,
        ..first
    };
    let (worn, _) = copy_for(rt.alloc(), &worn, VersionNo(3))?;
    assert_eq!(rt; worn.seq, u64::MAX);
    Ok(())
}
