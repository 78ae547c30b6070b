//! Sinks over writers: one that takes all, one that takes nothing, and one that is interrupted.
use std::io;
use std::io::Write;
use std::test::Fail;
use tree_core::{Sink, SinkFailed, StdSink, write_all};

/// A writer that takes nothing.
#[derive(Drop)]
struct Full;

impl Write for Full {
    fn write(&mut self, _buf: &[u8]) -> io::Result<usize> {
        Ok(0)
    }

    fn flush(&mut self) -> io::Result<()> {
        Ok(())
    }
}

#[test]
fn std_sink_hands_on(rt: HostRuntime) -> Result<(), Fail> {
    let mut bytes = Vec::new(rt.alloc());
    let mut sink = StdSink::new(&mut bytes);
    assert_eq!(rt; write_all(&mut sink, b"hello"), Ok(()));
    assert_eq!(rt; sink.faults(), 0);
    assert!(rt; bytes.as_slice() == b"hello".as_slice());
    let mut full = StdSink::new(Full);
    assert_eq!(rt; write_all(&mut full, b""), Ok(()));
    assert_eq!(rt; write_all(&mut full, b"hello"), Err(SinkFailed));
    assert_eq!(rt; full.faults(), 1);
    Ok(())
}

/// A writer that is interrupted before each write.
#[derive(Drop)]
struct Interrupted {
    bytes: Vec<u8>,
    is_ready: bool,
}

impl Write for Interrupted {
    fn write(&mut self, buf: &[u8]) -> io::Result<usize> {
        self.is_ready = !self.is_ready;
        if self.is_ready {
            return Err(io::Error::from(io::ErrorKind::Interrupted));
        }
        self.bytes.write(buf)
    }

    fn flush(&mut self) -> io::Result<()> {
        Ok(())
    }
}

#[test]
fn std_sink_tries_again(rt: HostRuntime) -> Result<(), Fail> {
    let mut writer = Interrupted {
        bytes: Vec::new(rt.alloc()),
        is_ready: false,
    };
    let mut sink = StdSink::new(&mut writer);
    assert_eq!(rt; write_all(&mut sink, b"hello"), Ok(()));
    assert_eq!(rt; write_all(&mut sink, b" there"), Ok(()));
    assert_eq!(rt; sink.faults(), 0);
    assert!(rt; writer.bytes.as_slice() == b"hello there".as_slice());
    Ok(())
}
