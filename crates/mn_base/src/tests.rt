use crate::{key_order, key_precedes};
use std::cmp::Ordering;
use std::test::Fail;

/// In each row the first key comes before the second.
const ASCENDING: [(&[u8], &[u8]); 16] = [
    (b"", b"a"),
    (b"", b"abcdef"),
    (b"abc", b"abd"),
    (b"abc", b"abcd"),
    (b"abcd", b"bbcd"),
    (b"abcd", b"accd"),
    (b"abcd", b"abdd"),
    (b"abcd", b"abce"),
    (b"abcd", b"abcde"),
    (b"abcde", b"abcdf"),
    (b"abcdzzz", b"abdd"),
    (b"abcdezz", b"abcdfaa"),
    (b"abcd\x7f\xff", b"abcd\x80\x00"),
    (b"abcdabcdabcdabc", b"abcdabcdabcdabd"),
    (
        b"abcdabcdabcdabcdabcdabcdabcdabcd",
        b"abcdabcdabcdabcdabcdabcdabcdabce",
    ),
    (
        b"abcdabcdabcdabcdabcdabcdabcdabc",
        b"abcdabcdabcdabcdabcdabcdabcdabcd",
    ),
];

#[test]
fn keys_of_any_length_are_ordered_by_their_bytes(rt: HostRuntime) -> Result<(), Fail> {
    for (low, high) in ASCENDING {
        assert_eq!(rt; key_order(low, high), Ordering::Less);
        assert_eq!(rt; key_order(high, low), Ordering::Greater);
        assert_eq!(rt; key_order(low, low), Ordering::Equal);
        assert_eq!(rt; key_order(high, high), Ordering::Equal);
        assert!(rt; key_precedes(low, high) && !key_precedes(high, low));
    }
    Ok(())
}
