// The file of a Unix socket that is listened on.
use mio::net::{UnixListener, UnixStream};
use std::fs::Files;
use std::io::ErrorKind;
use std::net::Net;
use std::os::unix::fs::FileTypeExt;
use std::{fs, io};

/// Listens at a path. A socket that was left over there is removed before; all else that stands there stays, and is a fault.
pub(crate) fn listen<R: Net + Files>(rt: &R, path: &str) -> io::Result<UnixListener> {
    if is_left_over(rt, path) {
        fs::remove_file(rt, path)?;
    }
    UnixListener::bind(rt, path)
}

/// Removes the file of a listener that was closed.
pub(crate) fn remove<R: Net + Files>(rt: &R, path: &str) {
    if is_left_over(rt, path) {
        let _removed = fs::remove_file(rt, path);
    }
}

// Whether a socket stands there that nobody listens on: a connect to it is refused.
fn is_left_over<R: Net + Files>(rt: &R, path: &str) -> bool {
    is_socket(rt, path) && is_refused(rt, path)
}

fn is_refused<R: Net>(rt: &R, path: &str) -> bool {
    match UnixStream::connect(rt, path) {
        Ok(_) => false,
        Err(fault) => fault.kind() == ErrorKind::ConnectionRefused,
    }
}

fn is_socket<R: Files>(rt: &R, path: &str) -> bool {
    match fs::symlink_metadata(rt, path) {
        Ok(about) => about.file_type().is_socket(),
        Err(_) => false,
    }
}
