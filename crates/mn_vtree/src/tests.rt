use crate::{TreeError, VersionTree};
use mn_base::VersionNo;
use std::test::Fail;

#[test]
fn parents_make_a_tree(rt: HostRuntime) -> Result<(), Fail> {
    let bad = VersionTree::new(rt.alloc(), &[None, Some(VersionNo(1))]).err();
    let version = VersionNo(1);
    assert_eq!(rt; bad, Some(TreeError::BadParent { version }));

    let tree = VersionTree::new(
        rt.alloc(),
        &[
            None,
            Some(VersionNo(0)),
            Some(VersionNo(0)),
            Some(VersionNo(2)),
        ],
    )?;
    // A page of version 0 that was copied for version 1.
    let cases = [
        (0, 0b10, 0, true),
        (0, 0b10, 1, false),
        (0, 0b10, 3, true),
        (1, 0, 3, false),
        (2, 0, 3, true),
    ];
    for (made, copied, v, serves) in cases {
        assert_eq!(rt; tree.serves(VersionNo(made), copied, VersionNo(v)), serves);
    }
    Ok(())
}
