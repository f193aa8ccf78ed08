// Files, and a wait that takes its time.
use crate::calls::Call::{FileLen, FileRead, NotTold, Now};
use crate::calls::Wanted;
use crate::steps::FileAct::{Removes, Renames, Writes};
use crate::steps::Step;
use crate::steps::Step::{Calls, File, PipeIsNoFile};
use world_face::{FileSize, Io};

/// Before the first wait no time has passed; a wait for what isn't ready takes its time.
const WAITS: [Step; 1] = [Calls(&[Now(0, 0), NotTold(Wanted::Link, 30), Now(30, 29_999)])];

/// Files are measured and read.
const READS: [Step; 8] = [
    File(Writes("kept", b"abcde")),
    File(Writes("other", b"xy")),
    Calls(&[
        // A file is measured and read from a place on.
        FileLen("kept", FileSize::Length(5)),
        FileRead("kept", 1, 8, Io::Done(4), b"bcde"),
        FileRead("kept", 5, 8, Io::End, b""),
        // Another is read, and the first again.
        FileRead("other", 0, 8, Io::Done(2), b"xy"),
        FileRead("kept", 0, 1, Io::Done(1), b"a"),
        // There is no such file.
        FileLen("lost", FileSize::Missing),
        FileRead("lost", 0, 8, Io::Failed, b""),
    ]),
    File(Writes("new", b"new")),
    File(Renames("new", "kept")),
    // What was put in a file's place is seen by the next that asks for its length.
    Calls(&[
        FileRead("kept", 0, 8, Io::Done(5), b"abcde"),
        FileLen("kept", FileSize::Length(3)),
        FileRead("kept", 0, 8, Io::Done(3), b"new"),
    ]),
    File(Removes("kept")),
    File(Removes("other")),
];

/// Only regular files are opened: not a folder, a device, or a pipe whose other end is closed.
const READS_NOTHING_ELSE: [Step; 2] = [
    Calls(&[
        FileLen(".", FileSize::Failed),
        FileRead(".", 0, 8, Io::Failed, b""),
        FileLen("/dev/null", FileSize::Failed),
        FileRead("/dev/null", 0, 8, Io::Failed, b""),
    ]),
    PipeIsNoFile,
];

/// What is done with files in one World, part by part.
pub static FILES: [&[Step]; 3] = [&WAITS, &READS, &READS_NOTHING_ELSE];
