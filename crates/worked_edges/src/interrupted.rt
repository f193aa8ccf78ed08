// Calls that a signal interrupts.
use host_io::{Buffer, Stream, again};
use std::io;
use std::io::{ErrorKind, Read, Write};
use std::test::Fail;

/// A stream of one octet, whose calls are interrupted so many times before each is made.
#[derive(Drop)]
struct Interrupted {
    times: u32,
    octet: u8,
}

impl Interrupted {
    // Whether this call is interrupted.
    fn is_now(&mut self) -> bool {
        if self.times > 0 {
            self.times -= 1;
            return true;
        }
        self.times = 3;
        false
    }
}

impl Read for Interrupted {
    fn read(&mut self, into: &mut [u8]) -> io::Result<usize> {
        if self.is_now() {
            return Err(io::Error::from(ErrorKind::Interrupted));
        }
        match into.first_mut() {
            Some(first) => {
                *first = self.octet;
                Ok(1)
            }
            None => Ok(0),
        }
    }
}

impl Write for Interrupted {
    fn write(&mut self, octets: &[u8]) -> io::Result<usize> {
        if self.is_now() {
            return Err(io::Error::from(ErrorKind::Interrupted));
        }
        match octets.first() {
            Some(first) => {
                self.octet = *first;
                Ok(1)
            }
            None => Ok(0),
        }
    }

    fn flush(&mut self) -> io::Result<()> {
        Ok(())
    }
}

impl Stream for Interrupted {
    fn read(&mut self, into: &mut [u8]) -> io::Result<usize> {
        again::read(self, into)
    }

    fn write(&mut self, octets: &[u8]) -> io::Result<usize> {
        again::write(self, octets)
    }
}

/// What a signal interrupted is done all the same, once.
#[test]
fn an_interrupted_call_is_made_again(rt: HostRuntime) -> Result<(), Fail> {
    let mut buffer = Buffer::open(rt.alloc(), 4).map_err(|_| "memory")?;
    let mut stream = Interrupted {
        times: 3,
        octet: b'c',
    };
    assert!(rt; buffer.put(b"ab"));
    assert!(rt; buffer.fill(&mut stream)? == 1);
    assert!(rt; buffer.drain(&mut stream)? == 1);
    assert!(rt; stream.octet == b'a');
    let mut into = [0u8; 4];
    assert!(rt; buffer.take(&mut into) == 2);
    assert!(rt; into.starts_with(b"bc"));
    Ok(())
}
