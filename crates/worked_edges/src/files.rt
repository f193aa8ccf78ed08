// Files, and what stands in the place of one.
use crate::calls::{file_reads, measures};
use std::alloc::Global;
use std::fs;
use std::fs::{FileType, Files};
use std::os::fd::AsRawFd;
use std::os::unix::fs::FileTypeExt;
use world_face::{FileSize, Io, World};

/// What can stand at a path.
#[derive(Clone, Copy)]
pub enum Kind {
    File,
    Folder,
    Socket,
    Link,
}

/// Whether something of that kind stands there.
pub fn stands<R: Files>(rt: &R, path: &str, kind: Kind) -> bool {
    match fs::symlink_metadata(rt, path) {
        Ok(about) => is_of(about.file_type(), kind),
        Err(_) => false,
    }
}

fn is_of(found: FileType, kind: Kind) -> bool {
    match kind {
        Kind::File => found.is_file(),
        Kind::Folder => found.is_dir(),
        Kind::Socket => found.is_socket(),
        Kind::Link => found.is_symlink(),
    }
}

/// Whether this has no length and can't be read.
fn is_no_file<W: World>(world: &mut W, name: &str) -> bool {
    measures(world, name, FileSize::Failed) && file_reads(world, name, 0, 8, Io::Failed, b"")
}

/// Whether a pipe whose other end is closed is no file: who opens one waits for ever.
pub fn is_no_pipe<R: Files + Alloc<A = Global>, W: World>(rt: &R, world: &mut W) -> bool {
    let Ok((reader, writer)) = rt.pipe() else {
        return false;
    };
    drop(writer);
    match format!(in rt.alloc(); "/proc/self/fd/{}", reader.as_raw_fd()) {
        Ok(name) => is_no_file(world, name.as_str()),
        Err(_) => false,
    }
}
