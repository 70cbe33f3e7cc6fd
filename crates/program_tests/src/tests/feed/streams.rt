//! A reader and a writer of std, as source and sink, of which one call fails.

use orc_fault::Failed;
use orc_feed::{Sink, Source, StdSink, StdSource};
use std::io;
use std::io::{Read, Write};
use std::test::Fail;

// Moves one byte a call, which is the number of the call, and fails at its second call alone.
#[derive(Drop)]
struct FailsSecond {
    calls: u8,
}

impl Read for FailsSecond {
    fn read(&mut self, to: &mut [u8]) -> io::Result<usize> {
        let call = self.calls.saturating_add(1);
        self.calls = call;
        if call == 2 {
            return Err(io::ErrorKind::Other.into());
        }
        if to.is_empty() {
            return Ok(0);
        }
        to[0] = call;
        Ok(1)
    }
}

impl Write for FailsSecond {
    fn write(&mut self, from: &[u8]) -> io::Result<usize> {
        let call = self.calls.saturating_add(1);
        self.calls = call;
        if call == 2 {
            return Err(io::ErrorKind::Other.into());
        }
        Ok(from.len().min(1))
    }

    fn flush(&mut self) -> io::Result<()> {
        Ok(())
    }
}

#[test]
fn a_failed_call_is_told_and_not_made_again(rt: HostRuntime) -> Result<(), Fail> {
    let mut source = StdSource::new(FailsSecond { calls: 0 });
    let mut to = [0; 4];
    assert!(rt; source.read(&mut to) == Ok(1));
    assert!(rt; source.read(&mut to) == Err(Failed));
    assert!(rt; source.read(&mut to) == Ok(1));
    assert!(rt; to[0] == 3);
    let mut sink = StdSink::new(FailsSecond { calls: 0 });
    assert!(rt; sink.write(b"ab") == Ok(1));
    assert!(rt; sink.write(b"b") == Err(Failed));
    assert!(rt; sink.write(b"b") == Ok(1));
    Ok(())
}
