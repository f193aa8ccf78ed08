// Files.
ghost use Rattle.std.specs.Prelude.{◌≡◌, ◌<◌, ◌≤◌, [], length};
ghost use Rattle.world_face.specs.Journal.{MayReadFile};

use arrayvec::ArrayString;
use host_io::again;
use std::fs::{File, Files, OpenFile};
use std::io::{ErrorKind, Seek, SeekFrom};
use std::{fs, io};
use world_face::{FileSize, Io, MOST_NAME};

/// The file that was measured or read last stays open, so that it is one file from its length to its end, whatever is put in its place meanwhile.
#[derive(Drop)]
pub(crate) struct OpenedFile<R: Files> {
    name: ArrayString<MOST_NAME>,
    file: Option<R::File>,
}

impl<R: Files> OpenedFile<R> {
    /// No file was measured or read yet.
    pub fn none() -> OpenedFile<R>
        ensures name { result.name.bytes ≡ [] }
        ensures file { result.file ≡ None }
    {
        OpenedFile {
            name: ArrayString::new(),
            file: None,
        }
    }

    /// The length of a regular file in octets, which stays open. Missing where there is no such file, Failed where something else stands there or
    /// it can't be opened.
    pub fn measure(&mut self, rt: &R, name: &str) -> FileSize {
        match open_regular(rt, name) {
            Ok((file, length)) => {
                self.keep(name, file);
                FileSize::Length(length)
            }
            Err(fault) if fault.kind() == ErrorKind::NotFound => FileSize::Missing,
            Err(_) => FileSize::Failed,
        }
    }

    /// Octets of a regular file from a place on.
    pub fn read(&mut self, rt: &R, name: &str, at: u64, into: &mut [u8]) -> Io
        requires { 0 < length into.old }
        ensures { MayReadFile (length into.old) result }
    {
        if self.name.as_str() != name {
            let FileSize::Length(_) = self.measure(rt, name) else {
                return Io::Failed;
            };
        }
        match &mut self.file {
            Some(file) => read_at(file, at, into),
            None => Io::Failed,
        }
    }

    // Keeps a file under its name, where that isn't too long; else none.
    fn keep(&mut self, name: &str, file: R::File)
        ensures kept { length name.now ≤ MOST_NAME → (self.new.name.bytes ≡ name.now) × (self.new.file ≡ Some file) }
        ensures long { MOST_NAME < length name.now → self.new.file ≡ None }
    {
        self.name.clear();
        self.file = self.name.try_push_str(name).is_ok().then_some(file);
    }
}

// Opens a file that is regular. It is looked at before, since to open a pipe would wait for its other end, and again once it is open.
fn open_regular<R: Files>(rt: &R, name: &str) -> io::Result<(R::File, u64)> {
    if !fs::metadata(rt, name)?.is_file() {
        return Err(io::Error::from(ErrorKind::InvalidInput));
    }
    let file = File::open(rt, name)?;
    let about = file.metadata()?;
    if !about.is_file() {
        return Err(io::Error::from(ErrorKind::InvalidInput));
    }
    Ok((file, about.len()))
}

fn read_at<F: io::Read + Seek>(file: &mut F, at: u64, into: &mut [u8]) -> Io
    requires { 0 < length into.old }
    ensures { MayReadFile (length into.old) result }
{
    if file.seek(SeekFrom::Start(at)).is_err() {
        return Io::Failed;
    }
    match again::read(file, into) {
        Ok(0) => Io::End,
        Ok(count) => Io::Done(count),
        Err(_) => Io::Failed,
    }
}
