// A sink over a writer that keeps what it took until it is flushed.
use app_edges::StdSink;
use std::io;
use std::io::{ErrorKind, Write};
use world_face::Sink;

/// A writer with octets that wait to be flushed, and whether a flush fails.
#[derive(Drop)]
struct Lazy {
    waiting: usize,
    fails: bool,
}

impl Write for Lazy {
    fn write(&mut self, octets: &[u8]) -> io::Result<usize> {
        self.waiting = self.waiting.saturating_add(octets.len());
        Ok(octets.len())
    }

    fn flush(&mut self) -> io::Result<()> {
        if self.fails {
            return Err(io::Error::from(ErrorKind::WriteZero));
        }
        self.waiting = 0;
        Ok(())
    }
}

/// What was put waits for no flush, or isn't taken.
#[test]
fn a_put_is_flushed(rt: HostRuntime) {
    for (fails, waiting) in [(false, 0), (true, 3)] {
        let mut writer = Lazy { waiting: 0, fails };
        let mut sink = StdSink::new(&mut writer);
        assert_eq!(rt; sink.put(b"abc").is_err(), fails);
        drop(sink);
        assert_eq!(rt; writer.waiting, waiting);
    }
}
