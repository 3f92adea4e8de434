use crate::{
    Bytes, Calls, Failed, Fault, MemorySink, MemorySource, NoMemory, ReadError, Source, read_all,
    write_all,
};
use std::alloc::Global;
use std::test::Fail;

/// What `read_all` answers on a source of these bytes with these failing calls: how many bytes
/// came.
fn count_read(
    alloc: Global,
    bytes: &[u8],
    fails: &[u64],
    limit: usize,
) -> Result<usize, ReadError> {
    let bytes = Bytes::from_vec(bytes.to_vec(alloc)?);
    let fails = Calls::from_vec(fails.to_vec(alloc)?);
    let mut source = MemorySource::new(bytes, fails);
    let read = read_all(alloc, &mut source, limit)?;
    Ok(read.as_slice().len())
}

#[test]
fn a_source_is_read_whole_within_the_limit_and_up_to_a_fault(rt: HostRuntime) -> Result<(), Fail> {
    let alloc = rt.alloc();
    let long = vec![in alloc; 7u8; 10000]?;
    assert_eq!(rt; count_read(alloc, b"", &[], 0)?, 0);
    assert_eq!(rt; count_read(alloc, b"abc", &[], 3)?, 3);
    assert_eq!(rt; count_read(alloc, b"abc", &[], 2), Err(ReadError::TooLong));
    assert_eq!(rt; count_read(alloc, &long, &[], 10000)?, 10000);
    assert_eq!(rt;
        count_read(alloc, &long, &[], 9999),
        Err(ReadError::TooLong)
    );
    assert_eq!(rt;
        count_read(alloc, &long, &[2], 10000),
        Err(ReadError::Fault)
    );
    assert_eq!(rt; count_read(alloc, &long, &[4], 10000)?, 10000);
    Ok(())
}

#[test]
fn a_failed_read_loses_no_byte(rt: HostRuntime) -> Result<(), Fail> {
    let alloc = rt.alloc();
    let bytes = Bytes::from_vec(b"abc".to_vec(alloc)?);
    let fails = Calls::from_vec([0u64].to_vec(alloc)?);
    let mut source = MemorySource::new(bytes, fails);
    let mut into = [0u8; 8];
    assert_eq!(rt; source.read(&mut into), Err(Failed));
    assert_eq!(rt; source.read(&mut into), Ok(3));
    assert_eq!(rt; into, *b"abc\0\0\0\0\0");
    Ok(())
}

#[test]
fn a_sink_takes_what_fits_and_a_fault_leaves_a_prefix(rt: HostRuntime) -> Result<(), Fail> {
    let alloc = rt.alloc();
    let mut sink = MemorySink::new(alloc, 5, Calls::from_vec([1u64].to_vec(alloc)?))?;
    assert_eq!(rt; write_all(&mut sink, b"abc"), Ok(()));
    assert_eq!(rt; write_all(&mut sink, b"x"), Err(Fault));
    assert_eq!(rt; write_all(&mut sink, b"defg"), Err(Fault));
    assert_eq!(rt; sink.written(), b"abcde".as_slice());
    assert_eq!(rt; write_all(&mut sink, b""), Ok(()));
    Ok(())
}
