//! Folders, in which files are opened by name, and the machine's.

ghost use Rattle.std.specs.Prelude.{◌≡◌, ℕ, ◌<◌, ◌≤◌, ◌↔◌, List, length, take, drop, Option, Some, None, IfOk, IfSome};
ghost use Rattle.mw_outside.specs.Contents.{Contents, Has};

use std::alloc::Global;
use std::fs::OpenFile;
use std::io::{Read, Seek, SeekFrom};
use std::os::unix::fs::MetadataExt;
use std::rt::Files as System;
use std::{fs, io};

/// What changes where a file is written: its size, and the time of the last change of its bytes.
#[derive(Clone, Copy, PartialEq)]
pub struct Stamp {
    size: u64,
    seconds: i64,
    nanoseconds: i64,
}

/// A folder, whose files are read through handles.
pub trait Folder {
    /// An open file.
    type Handle: Drop;

    /// What the files hold, where that is told.
    ghost contents: { Self → Option Contents };

    /// What an open file holds, where that is told. No call changes it.
    ghost held: { Self.Handle → Option (List ℕ) };

    /// The memory of the machine.
    fn memory(&self) -> Global;

    /// Opens a file. A name that is not there fails.
    fn open(&self, name: &str) -> io::Result<Self::Handle>
        ensures { IfOk result (λ handle. Has (contents self.now) name.now (λ file. held handle ≡ Some file)) };

    /// Reads bytes of an open file from `at`, a number of bytes, into the front of `into`, and answers how many came.
    fn read_from(handle: &mut Self::Handle, at: u64, into: &mut [u8]) -> io::Result<usize>
        ensures kept { held handle.new ≡ held handle.old }
        ensures within { IfOk result (λ count. count ≤ length into.old) }
        ensures bytes { IfOk result (λ count. IfSome (held handle.old)
            (λ file. take count into.new ≡ take count (drop at file))) }
        ensures end { IfOk result (λ count. 0 < length into.old → IfSome (held handle.old)
            (λ file. (count ≡ 0) ↔ (length file ≤ at))) };

    /// The stamp of an open file.
    fn stamp(handle: &Self::Handle) -> io::Result<Stamp>;
}

/// The files of the machine. They tell no bytes.
impl<R: System + AllocGlobal> Folder for R {
    type Handle = R::File;

    ghost contents = { λ _. None };

    ghost held = { λ _. None };

    fn memory(&self) -> Global {
        self.alloc()
    }

    fn open(&self, name: &str) -> io::Result<R::File> {
        fs::open(self, name)
    }

    fn read_from(handle: &mut R::File, at: u64, into: &mut [u8]) -> io::Result<usize> {
        handle.seek(SeekFrom::Start(at))?;
        handle.read(into)
    }

    fn stamp(handle: &R::File) -> io::Result<Stamp> {
        let told = handle.metadata()?;
        Ok(Stamp {
            size: told.len(),
            seconds: told.mtime(),
            nanoseconds: told.mtime_nsec(),
        })
    }
}
