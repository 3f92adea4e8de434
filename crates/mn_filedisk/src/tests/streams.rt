//! A source and a sink over a reader and a writer that are interrupted, and that fail.
use crate::{StdSink, StdSource};
use mn_io::{Failed, Sink, Source};
use std::io::{Error, ErrorKind, Read, Write};
use std::test::Fail;

/// A reader that signals interrupt so often. Then it gives one byte, and then it fails.
#[derive(Drop)]
struct Interrupted {
    signals: u32,
    is_read: bool,
}

impl Read for Interrupted {
    fn read(&mut self, into: &mut [u8]) -> std::io::Result<usize> {
        if self.signals > 0 {
            self.signals -= 1;
            return Err(Error::from(ErrorKind::Interrupted));
        }
        if self.is_read || into.is_empty() {
            return Err(Error::from(ErrorKind::BrokenPipe));
        }
        self.is_read = true;
        into[0] = 7;
        Ok(1)
    }
}

#[test]
fn an_interrupted_read_goes_round_again(rt: HostRuntime) -> Result<(), Fail> {
    let mut source = StdSource::new(Interrupted {
        signals: 3,
        is_read: false,
    });
    let mut into = [0u8; 4];
    assert!(rt; source.read(&mut into) == Ok(1));
    assert!(rt; into == [7, 0, 0, 0] && source.faults() == 0);
    assert!(rt; source.read(&mut into).is_err());
    assert!(rt; source.faults() == 1);
    Ok(())
}

/// A writer that signals interrupt so often. Then it takes at most two bytes of a piece, as long as
/// it has room.
#[derive(Drop)]
struct Narrow {
    signals: u32,
    room: usize,
}

impl Write for Narrow {
    fn write(&mut self, piece: &[u8]) -> std::io::Result<usize> {
        if self.signals > 0 {
            self.signals -= 1;
            return Err(Error::from(ErrorKind::Interrupted));
        }
        let count = piece.len().min(self.room).min(2);
        self.room -= count;
        Ok(count)
    }

    fn flush(&mut self) -> std::io::Result<()> {
        Ok(())
    }
}

#[test]
fn a_writer_that_takes_none_of_a_piece_is_one_fault(rt: HostRuntime) -> Result<(), Fail> {
    let mut sink = StdSink::new(Narrow {
        signals: 3,
        room: 3,
    });
    assert!(rt; sink.write(b"abc") == Ok(2));
    assert!(rt; sink.write(b"c") == Ok(1));
    assert!(rt; sink.write(b"") == Ok(0) && sink.faults() == 0);
    assert!(rt; sink.write(b"d") == Err(Failed) && sink.faults() == 1);
    Ok(())
}
