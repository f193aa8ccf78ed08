//! Whether the system sends at once what is written.
use host_io::send_at_once;
use mio::net::TcpStream;
use std::net::TcpListener;
use std::test::Fail;

/// A connection that was asked to sends at once; before it doesn't.
#[test]
fn a_connection_sends_at_once(rt: HostRuntime) -> Result<(), Fail> {
    let listener = TcpListener::bind(&rt, "127.0.0.1:0")?;
    let stream = TcpStream::connect(&rt, listener.local_addr()?)?;
    assert!(rt; !stream.nodelay()?);
    let mut calls = &stream;
    send_at_once(&mut calls);
    assert!(rt; stream.nodelay()?);
    Ok(())
}
